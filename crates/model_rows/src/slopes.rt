//! The rows of slopes: the slope of each variable in its column, and the duration in the last.

ghost use Rattle.std.specs.Prelude.{◌≡◌, ◌+◌, ◌<◌, ◌≤◌, ◌++◌, ◌∷◌, [], map, flat_map, length, option_map, slice_set, Some, false, IsTrue, Err, IfOk, OnOk, neg_ℤ};
ghost use Rattle.std.specs.List.{find};
ghost use Rattle.poly_specs.specs.Bits.{FitsBits};
ghost use Rattle.run_specs.specs.Stages.{zeros as zero_numbers, below};
ghost use Rattle.model_specs.specs.Constraints as constraints;
ghost use Rattle.model_specs.specs.Automata as automata;
ghost use Rattle.model_rows.specs.Passing.{slopes_pass};

use crate::RowFault;
use crate::comparisons::{Comparison, push_all_rows};
use crate::names::are_same;
use crate::parts::timed_parts_of;
use crate::rows::{opposite, push_two};
use lang_trees::{BoxTree, LocTree, RowTree, RowsTree};
use lha_model::Name;
use lin_row::Row;
use smallvec::SmallVec;
use std::alloc::{AllocError, Global};

fn set(numbers: &mut SmallVec<i128, 14>, at: usize, number: i128)
    requires { at < length numbers.old.items }
    ensures { numbers.new.items ≡ slice_set numbers.old.items at number }
{
    numbers.as_mut_slice()[at] = number;
}

/// So many zeros.
fn zeros(alloc: Global, count: usize) -> SmallVec<i128, 14>
    requires { count ≤ 14 }
    ensures { result.items ≡ zero_numbers count }
{
    SmallVec::from_elem(alloc, 0, count).unwrap()
}

/// Of `m` variables, the row that says `c * (slope of variable j) + n * duration <= 0`.
fn slope_row(alloc: Global, m: usize, j: usize, c: i128, n: i128) -> Row
    requires few { m ≤ 13 }
    requires within { j < m }
    requires slope_fits { FitsBits c }
    requires time_fits { FitsBits n }
    ensures { result ≡ constraints.slope_row m j c n }
{
    let mut coef = zeros(alloc, m + 1);
    set(&mut coef, j, c);
    set(&mut coef, m, n);
    Row::make(alloc, coef.as_slice(), 0)
}

/// Appends the rows of a box of variable `j`: the upper one, and then the lower one.
fn push_box(
    alloc: Global,
    rows: &mut Vec<Row>,
    m: usize,
    j: usize,
    bounds: &BoxTree,
) -> Result<(), AllocError>
    requires few { m ≤ 13 }
    requires within { j < m }
    ensures { OnOk result (rows.new.items ≡ rows.old.items ++ constraints.box_rows m j bounds.now) }
{
    let (lo, hi) = (bounds.lo(), bounds.hi());
    let upper = slope_row(alloc, m, j, hi.den(), opposite(hi.num()));
    let lower = slope_row(alloc, m, j, opposite(lo.den()), lo.num());
    push_two(rows, upper, lower)
}

/// The first box of a variable.
fn box_of<'a>(boxes: &'a [BoxTree], var: &Name) -> Option<&'a BoxTree>
    ensures { option_map (λ x. x.now) result ≡ automata.box_of boxes.now var.now }
{
    for bounds in boxes {
        if are_same(bounds.var(), var) {
            return Some(bounds);
        }
    }
    None
}

/// Appends the rows of variable `j`, if there is a box of it.
fn push_any_box(
    alloc: Global,
    rows: &mut Vec<Row>,
    m: usize,
    j: usize,
    bounds: Option<&BoxTree>,
) -> Result<(), AllocError>
    requires few { m ≤ 13 }
    requires within { j < m }
    ensures { OnOk result (rows.new.items ≡ rows.old.items ++ automata.rows_of_box m j (option_map (λ x. x.now) bounds.entry)) }
{
    match bounds {
        None => Ok(()),
        Some(bounds) => push_box(alloc, rows, m, j, bounds),
    }
}

/// Appends the rows of variable `j`, if it has a box.
fn push_box_of(
    alloc: Global,
    rows: &mut Vec<Row>,
    vars: &[Name],
    j: usize,
    boxes: &[BoxTree],
) -> Result<(), AllocError>
    requires few { length vars.now ≤ 13 }
    requires within { j < length vars.now }
    ensures { OnOk result (rows.new.items ≡ rows.old.items ++ automata.rows_of_box (length vars.now) j (automata.box_of boxes.now (automata.variable_at vars.now j))) }
{
    push_any_box(alloc, rows, vars.len(), j, box_of(boxes, &vars[j]))
}

/// Appends the rows of the boxes, by variable.
fn push_boxes(
    alloc: Global,
    rows: &mut Vec<Row>,
    vars: &[Name],
    boxes: &[BoxTree],
) -> Result<(), AllocError>
    requires { length vars.now ≤ 13 }
    ensures { OnOk result (rows.new.items ≡ rows.old.items
        ++ flat_map (λ j. automata.rows_of_box (length vars.now) j (automata.box_of boxes.now (automata.variable_at vars.now j))) (below (length vars.now))) }
{
    for j in 0..vars.len() {
        push_box_of(alloc, rows, vars, j, boxes)?;
    }
    Ok(())
}

/// A constraint of slopes, in which a number alone stands for so much of each unit of time.
fn slope_constraint(alloc: Global, vars: &[Name], row: &RowTree) -> Result<Comparison, AllocError>
    ensures { IfOk result (λ c. c ≡ constraints.slope_constraint vars.now row.now) }
{
    let left = timed_parts_of(alloc, vars, row.left().terms())?;
    let right = timed_parts_of(alloc, vars, row.right().terms())?;
    Ok(Comparison {
        left,
        sign: row.sign(),
        right,
    })
}

/// Constraints of slopes.
fn slope_constraints(
    alloc: Global,
    vars: &[Name],
    rows: &[RowTree],
) -> Result<Vec<Comparison>, AllocError>
    ensures { IfOk result (λ v. v.items ≡ map (constraints.slope_constraint vars.now) rows.now) }
{
    let mut said = Vec::new(alloc);
    for row in rows {
        said.push(slope_constraint(alloc, vars, row)?)?;
    }
    Ok(said)
}

/// Appends the rows of constraints of slopes. `Passes` only where a number on the way passes 128 bits.
fn push_slope_rows(
    alloc: Global,
    rows: &mut Vec<Row>,
    vars: &[Name],
    tree: &RowsTree,
) -> Result<(), RowFault>
    requires { length vars.now ≤ 13 }
    ensures ok { OnOk result (rows.new.items ≡ rows.old.items ++ automata.also_rows vars.now (Some tree.now)) }
    ensures kept { OnOk result (slopes_pass vars.now (Some tree.now) ≡ false) }
    ensures passes { result ≡ Err RowFault.Passes → IsTrue (slopes_pass vars.now (Some tree.now)) }
{
    let said = slope_constraints(alloc, vars, tree.rows())?;
    push_all_rows(alloc, rows, vars.len() + 1, said.as_slice())
}

/// Appends the rows of a statement `also`, if there is one. `Passes` only where a number on the way passes 128 bits.
fn push_also(
    alloc: Global,
    rows: &mut Vec<Row>,
    vars: &[Name],
    also: Option<&RowsTree>,
) -> Result<(), RowFault>
    requires { length vars.now ≤ 13 }
    ensures ok { OnOk result (rows.new.items ≡ rows.old.items ++ automata.also_rows vars.now (option_map (λ x. x.now) also.entry)) }
    ensures kept { OnOk result (slopes_pass vars.now (option_map (λ x. x.now) also.entry) ≡ false) }
    ensures passes { result ≡ Err RowFault.Passes → IsTrue (slopes_pass vars.now (option_map (λ x. x.now) also.entry)) }
{
    match also {
        None => Ok(()),
        Some(tree) => push_slope_rows(alloc, rows, vars, tree),
    }
}

/// The rows of a location's slopes: for each variable the upper row of its box before the lower one, and then those of the
/// statement `also`. A variable without a box has no rows.
///
/// `Passes` only where a number on the way to a row of `also` passes 128 bits; where one does, there are no rows.
pub fn slope_rows(alloc: Global, vars: &[Name], loc: &LocTree) -> Result<Vec<Row>, RowFault>
    requires { length vars.now ≤ 13 }
    ensures ok { IfOk result (λ v. v.items ≡ automata.slope_rows vars.now loc.now) }
    ensures kept { IfOk result (λ v. slopes_pass vars.now loc.now.also ≡ false) }
    ensures passes { result ≡ Err RowFault.Passes → IsTrue (slopes_pass vars.now loc.now.also) }
{
    let mut rows = Vec::new(alloc);
    push_boxes(alloc, &mut rows, vars, loc.flow().boxes())?;
    push_also(alloc, &mut rows, vars, loc.also())?;
    Ok(rows)
}
