//! The rows of a sample after a gap, over the values and then the elapsed time: its length has
//! elapsed, and each observed value is within its tolerance.

ghost use Rattle.std.specs.Prelude.{◌≡◌, ◌+◌, ◌<◌, ◌≤◌, ◌++◌, ◌∷◌, [], Err, IfOk, IfErr, OnOk, length, filter};
ghost use Rattle.std.specs.List.{flat_map};
ghost use Rattle.poly_specs.specs.Arithmetic.{lowest, least_sum, sum_numbers};
ghost use Rattle.poly_specs.specs.Bits.{SomePasses};
ghost use Rattle.poly_specs.specs.Fractions.{sum_of, opposite as turned};
ghost use Rattle.run_specs.specs.Automaton.{width};
ghost use Rattle.run_specs.specs.Stages as stages;
ghost use Rattle.run_specs.specs.Stages.{near_rows, near_sums, seen_rows, seen_sums, seen_exactly, below};

use fm_eliminate::RowFault;
use frac128::Frac;
use lha_model::Automaton;
use lin_row::{Passes, Row};
use stage_rows::{only, opposite};
use std::alloc::{AllocError, Global};

/// Of so many columns, the row that this one is at most `v`.
#[tactic(auto, using(crate::proofs::SampleRows::only_fits))]
pub fn at_most(alloc: Global, count: usize, x: usize, v: &Frac) -> Row
    requires few { count ≤ 14 }
    requires within { x < count }
    ensures { result ≡ stages.at_most count x v.now }
{
    let coef = only(alloc, count, x, v.den());
    Row::make(alloc, coef.as_slice(), opposite(v.num()))
}

/// The row that it is at least `v`.
#[tactic(auto, using(crate::proofs::SampleRows::only_fits))]
pub fn at_least(alloc: Global, count: usize, x: usize, v: &Frac) -> Row
    requires few { count ≤ 14 }
    requires within { x < count }
    ensures { result ≡ stages.at_least count x v.now }
{
    let coef = only(alloc, count, x, opposite(v.den()));
    Row::make(alloc, coef.as_slice(), v.num())
}

fn sum(v: &Frac, w: &Frac) -> Result<Frac, Passes>
    ensures ok { IfOk result (λ x. x ≡ lowest (sum_of v.now w.now)) }
    ensures passes { IfErr result (λ e. SomePasses (sum_numbers v.now w.now)) }
{
    match v.add(w) {
        Some(x) => Ok(x),
        None => Err(Passes),
    }
}

/// The row that a column is at most a value with its tolerance.
fn upper(alloc: Global, count: usize, x: usize, v: &Frac, w: &Frac) -> Result<Row, Passes>
    requires few { count ≤ 14 }
    requires within { x < count }
    ensures ok { IfOk result (λ r. r ≡ stages.at_most count x (least_sum v.now w.now)) }
    ensures passes { IfErr result (λ e. SomePasses (sum_numbers v.now w.now)) }
{
    // The denominators are positive, as their readers say.
    v.den();
    w.den();
    let most = sum(v, w)?;
    Ok(at_most(alloc, count, x, &most))
}

/// The row that it is at least the value without the tolerance.
fn lower(alloc: Global, count: usize, x: usize, v: &Frac, w: &Frac) -> Result<Row, Passes>
    requires few { count ≤ 14 }
    requires within { x < count }
    ensures ok { IfOk result (λ r. r ≡ stages.at_least count x (least_sum v.now (turned w.now))) }
    ensures passes { IfErr result (λ e. SomePasses (sum_numbers v.now (turned w.now))) }
{
    v.den();
    w.den();
    let least = sum(v, &w.neg())?;
    Ok(at_least(alloc, count, x, &least))
}

fn add_two(rows: &mut Vec<Row>, up: Row, low: Row) -> Result<(), AllocError>
    ensures { OnOk result (rows.new.items ≡ rows.old.items ++ up ∷ low ∷ []) }
{
    rows.push(up)?;
    rows.push(low)?;
    Ok(())
}

/// Adds the two rows of an observed value.
fn add_near(
    alloc: Global,
    rows: &mut Vec<Row>,
    count: usize,
    x: usize,
    w: &Frac,
    cell: Option<Frac>,
) -> Result<(), RowFault>
    requires few { count ≤ 14 }
    requires within { x < count }
    ensures ok { OnOk result (rows.new.items ≡ rows.old.items ++ near_rows count x w.now cell) }
    ensures passes { result ≡ Err RowFault.Passes → SomePasses (near_sums w.now cell) }
{
    let Some(v) = cell else {
        return Ok(());
    };
    let up = upper(alloc, count, x, &v, w)?;
    let low = lower(alloc, count, x, &v, w)?;
    add_two(rows, up, low)?;
    Ok(())
}

/// Adds the rows of variable `j`.
fn add_seen(
    alloc: Global,
    rows: &mut Vec<Row>,
    a: &Automaton,
    seen: &[Option<Frac>],
    j: usize,
) -> Result<(), RowFault>
    requires sized { length seen.now ≡ width a.now }
    requires within { j < width a.now }
    ensures ok { OnOk result (rows.new.items ≡ rows.old.items ++ seen_rows a.now seen.now j) }
    ensures passes { result ≡ Err RowFault.Passes → SomePasses (seen_sums a.now seen.now j) }
{
    add_near(alloc, rows, a.vars().len() + 1, j, &a.obs()[j], seen[j])
}

fn is_exact_cell(w: &Frac, cell: Option<Frac>) -> bool
    ensures { result ≡ stages.is_exact w.now cell }
{
    match cell {
        None => false,
        Some(_) => w.num() == 0,
    }
}

/// Whether variable `j` is observed with the tolerance 0.
pub fn is_exact(a: &Automaton, seen: &[Option<Frac>], j: usize) -> bool
    requires sized { length seen.now ≡ width a.now }
    requires within { j < width a.now }
    ensures { result ≡ seen_exactly a.now seen.now j }
{
    // There is a tolerance for each variable.
    a.vars();
    is_exact_cell(&a.obs()[j], seen[j])
}

/// Adds the rows of all observed variables.
pub fn add_all_seen(
    alloc: Global,
    rows: &mut Vec<Row>,
    a: &Automaton,
    seen: &[Option<Frac>],
) -> Result<(), RowFault>
    requires sized { length seen.now ≡ width a.now }
    ensures ok { OnOk result (rows.new.items ≡ rows.old.items ++ flat_map (seen_rows a.now seen.now) (below (width a.now))) }
    ensures passes { result ≡ Err RowFault.Passes → SomePasses (flat_map (seen_sums a.now seen.now) (below (width a.now))) }
{
    for j in 0..a.vars().len() {
        add_seen(alloc, rows, a, seen, j)?;
    }
    Ok(())
}

/// The rows of the variables that are observed with the tolerance 0.
pub fn exact_rows(alloc: Global, a: &Automaton, seen: &[Option<Frac>]) -> Result<Vec<Row>, RowFault>
    requires sized { length seen.now ≡ width a.now }
    ensures ok { IfOk result (λ v. v.items ≡ flat_map (seen_rows a.now seen.now) (filter (seen_exactly a.now seen.now) (below (width a.now)))) }
    ensures passes { result ≡ Err RowFault.Passes → SomePasses (flat_map (seen_sums a.now seen.now) (below (width a.now))) }
{
    let mut rows = Vec::new(alloc);
    for j in 0..a.vars().len() {
        if is_exact(a, seen, j) {
            add_seen(alloc, &mut rows, a, seen, j)?;
        }
    }
    Ok(rows)
}

/// The rows that a sample adds to those of a state.
pub fn added_rows(
    alloc: Global,
    a: &Automaton,
    gap: &Frac,
    seen: &[Option<Frac>],
) -> Result<Vec<Row>, RowFault>
    requires sized { length seen.now ≡ width a.now }
    ensures ok { IfOk result (λ v. v.items ≡ stages.at_most (width a.now + 1) (width a.now) gap.now ∷ stages.at_least (width a.now + 1) (width a.now) gap.now ∷ flat_map (seen_rows a.now seen.now) (below (width a.now))) }
    ensures passes { result ≡ Err RowFault.Passes → SomePasses (flat_map (seen_sums a.now seen.now) (below (width a.now))) }
{
    let m = a.vars().len();
    let mut rows = Vec::new(alloc);
    let up = at_most(alloc, m + 1, m, gap);
    let low = at_least(alloc, m + 1, m, gap);
    add_two(&mut rows, up, low)?;
    add_all_seen(alloc, &mut rows, a, seen)?;
    Ok(rows)
}
