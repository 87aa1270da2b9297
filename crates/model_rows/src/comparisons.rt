//! Comparisons of two sums, and their rows.

ghost use Rattle.std.specs.Prelude.{◌≡◌, ◌≤◌, ◌++◌, ◌∷◌, [], map, flat_map, false, IsTrue, Err, IfOk, OnOk};
ghost use Rattle.model_specs.specs.Constraints as constraints;
ghost use Rattle.model_specs.specs.Automata as automata;
ghost use Rattle.model_specs.specs.Faults.{some_passes};
ghost use Rattle.model_specs.specs.Parts.{row_of_parts};
ghost use Rattle.model_rows.specs.Passing.{comparisons_pass, constraints_pass};

use crate::RowFault;
use crate::parts::{Part, parts_of, sides};
use crate::rows::{negated, push_two, row_of_parts};
use lang_trees::{RowTree, Sign};
use lha_model::Name;
use lin_row::Row;
use std::alloc::{AllocError, Global};
use std::marker::Model;

/// A comparison of two sums.
#[derive(Debug, Drop)]
pub(crate) struct Comparison {
    pub(crate) left: Vec<Part>,
    pub(crate) sign: Sign,
    pub(crate) right: Vec<Part>,
}

impl Model for Comparison {
    ghost use Rattle.model_specs.specs.Constraints as constraints;

    ghost Value = { constraints.Comparison };

    ghost view = { λ c. record { left = c.left.items; sign = c.sign; right = c.right.items } };
}

impl Comparison {
    /// The sum before the sign.
    fn left(&self) -> &[Part]
        ensures { result.now ≡ self.now.left }
    {
        self.left.as_slice()
    }

    /// How the two compare.
    fn sign(&self) -> Sign
        ensures { result ≡ self.now.sign }
    {
        self.sign
    }

    /// The sum behind the sign.
    fn right(&self) -> &[Part]
        ensures { result.now ≡ self.now.right }
    {
        self.right.as_slice()
    }

    /// Both sides on one: the sum that is to be at most 0.
    fn sum(&self, alloc: Global) -> Result<Vec<Part>, AllocError>
        ensures { IfOk result (λ v. v.items ≡ constraints.sides self.now.sign self.now.left self.now.right) }
    {
        sides(alloc, self.sign(), self.left(), self.right())
    }
}

/// A constraint over the variables, which stand in the first columns.
fn constraint(alloc: Global, vars: &[Name], row: &RowTree) -> Result<Comparison, AllocError>
    ensures { IfOk result (λ c. c ≡ constraints.constraint vars.now row.now) }
{
    let left = parts_of(alloc, vars, row.left().terms())?;
    let right = parts_of(alloc, vars, row.right().terms())?;
    Ok(Comparison {
        left,
        sign: row.sign(),
        right,
    })
}

/// Appends constraints over the variables.
pub(crate) fn push_constraints(
    alloc: Global,
    said: &mut Vec<Comparison>,
    vars: &[Name],
    rows: &[RowTree],
) -> Result<(), AllocError>
    ensures { OnOk result (said.new.items ≡ said.old.items ++ map (constraints.constraint vars.now) rows.now) }
{
    for row in rows {
        said.push(constraint(alloc, vars, row)?)?;
    }
    Ok(())
}

/// Whether the row of a comparison is strict.
fn is_strict(sign: Sign) -> bool
    ensures { result ≡ constraints.is_strict sign }
{
    matches!(sign, Sign::Less | Sign::Greater)
}

/// Appends a row, and for an equation the negation of it.
fn push_by(alloc: Global, rows: &mut Vec<Row>, sign: Sign, row: Row) -> Result<(), AllocError>
    ensures { OnOk result (rows.new.items ≡ rows.old.items ++ constraints.rows_by sign row) }
{
    if sign == Sign::Equal {
        let other = negated(alloc, &row);
        push_two(rows, row, other)
    } else {
        rows.push(row)?;
        Ok(())
    }
}

/// The row of a comparison over `width` columns. `Passes` only where a number on the way passes 128 bits, and some fault
/// where one does.
fn row_of(alloc: Global, width: usize, said: &Comparison) -> Result<Row, RowFault>
    requires { width ≤ 14 }
    ensures ok { IfOk result (λ r. r ≡ row_of_parts width (constraints.is_strict said.now.sign) (constraints.sides said.now.sign said.now.left said.now.right)) }
    ensures kept { IfOk result (λ r. some_passes (constraints.comparison_numbers width said.now) ≡ false) }
    ensures passes { result ≡ Err RowFault.Passes → IsTrue (some_passes (constraints.comparison_numbers width said.now)) }
{
    let sum = said.sum(alloc)?;
    row_of_parts(alloc, width, is_strict(said.sign()), sum.as_slice())
}

/// Appends the rows of a comparison over `width` columns. `Passes` only where a number on the way passes 128 bits.
fn push_rows(
    alloc: Global,
    rows: &mut Vec<Row>,
    width: usize,
    said: &Comparison,
) -> Result<(), RowFault>
    requires { width ≤ 14 }
    ensures ok { OnOk result (rows.new.items ≡ rows.old.items ++ constraints.comparison_rows width said.now) }
    ensures kept { OnOk result (some_passes (constraints.comparison_numbers width said.now) ≡ false) }
    ensures passes { result ≡ Err RowFault.Passes → IsTrue (some_passes (constraints.comparison_numbers width said.now)) }
{
    let row = row_of(alloc, width, said)?;
    push_by(alloc, rows, said.sign(), row)?;
    Ok(())
}

/// Appends the rows of comparisons over `width` columns. `Passes` only where a number on the way passes 128 bits, and some
/// fault where one does.
pub(crate) fn push_all_rows(
    alloc: Global,
    rows: &mut Vec<Row>,
    width: usize,
    said: &[Comparison],
) -> Result<(), RowFault>
    requires { width ≤ 14 }
    ensures ok { OnOk result (rows.new.items ≡ rows.old.items ++ flat_map (constraints.comparison_rows width) said.now) }
    ensures kept { OnOk result (comparisons_pass width said.now ≡ false) }
    ensures passes { result ≡ Err RowFault.Passes → IsTrue (comparisons_pass width said.now) }
{
    for one in said {
        push_rows(alloc, rows, width, one)?;
    }
    Ok(())
}

/// The rows of comparisons over `width` columns. `Passes` only where a number on the way passes 128 bits, and some fault
/// where one does.
pub(crate) fn rows_of(
    alloc: Global,
    width: usize,
    said: &[Comparison],
) -> Result<Vec<Row>, RowFault>
    requires { width ≤ 14 }
    ensures ok { IfOk result (λ v. v.items ≡ flat_map (constraints.comparison_rows width) said.now) }
    ensures kept { IfOk result (λ v. comparisons_pass width said.now ≡ false) }
    ensures passes { result ≡ Err RowFault.Passes → IsTrue (comparisons_pass width said.now) }
{
    let mut rows = Vec::new(alloc);
    push_all_rows(alloc, &mut rows, width, said)?;
    Ok(rows)
}

/// Constraints over the variables.
fn constraints_of(
    alloc: Global,
    vars: &[Name],
    rows: &[RowTree],
) -> Result<Vec<Comparison>, AllocError>
    ensures { IfOk result (λ v. v.items ≡ map (constraints.constraint vars.now) rows.now) }
{
    let mut said = Vec::new(alloc);
    push_constraints(alloc, &mut said, vars, rows)?;
    Ok(said)
}

/// The rows of constraints over `width` columns, the variables first, in order; an equation gives two, a row and its
/// negation.
///
/// `Passes` only where a number on the way to a row passes 128 bits; where one does, there are no rows.
pub fn constraint_rows(
    alloc: Global,
    vars: &[Name],
    width: usize,
    rows: &[RowTree],
) -> Result<Vec<Row>, RowFault>
    requires { width ≤ 14 }
    ensures ok { IfOk result (λ v. v.items ≡ automata.constraint_rows vars.now width rows.now) }
    ensures kept { IfOk result (λ v. constraints_pass vars.now width rows.now ≡ false) }
    ensures passes { result ≡ Err RowFault.Passes → IsTrue (constraints_pass vars.now width rows.now) }
{
    let said = constraints_of(alloc, vars, rows)?;
    rows_of(alloc, width, said.as_slice())
}
