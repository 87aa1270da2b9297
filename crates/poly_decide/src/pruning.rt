//! Systems without the rows that others of their rows imply.

ghost use Rattle.std.specs.Prelude.{◌≡◌, ◌↔◌, ◌+◌, ◌<◌, ◌≤◌, ◌++◌, ◌∷◌, [], List, Any, IsTrue, IfOk, OnOk, MatchBool, length, take, drop};
ghost use Rattle.poly_specs.specs.Bounds.{Entails};
ghost use Rattle.poly_specs.specs.Columns.{IsDominated};
ghost use Rattle.poly_specs.specs.Rows.{Row as RowValue, AllWide};
ghost use Rattle.poly_decide.specs.Pruned.{IsPruned, IsThinned, AreUndominated, AreUndominatedFrom};

use crate::outside::{add_copies, shown_outside};
use fm_eliminate::System;
use lin_row::Row;
use point_hints::{Shown, likely_needed};
use std::alloc::{AllocError, Global};

/// A system with the same points, of some of the rows in their order.
///
/// No row that is left dominates another one: of equal rows one stays. A row is also dropped where
/// it is quickly shown that others that are left imply it; where nothing is shown, a row that none
/// dominates stays.
pub fn prune(alloc: Global, s: &System) -> Result<System, AllocError>
    ensures pruned { IfOk result (λ t. IsPruned s.now t) }
    ensures undominated { IfOk result (λ t. AreUndominated t.rows) }
{
    let width = s.width();
    let rows = thinned(alloc, width, s.rows())?;
    Ok(System::of_rows(width, rows))
}

/// Some of the rows, with the same points: first without those that rows before them are found to
/// imply, so that the search among all others is one among few.
fn thinned(alloc: Global, width: usize, rows: &[Row]) -> Result<Vec<Row>, AllocError>
    requires wide { AllWide width rows.now }
    ensures thinned { IfOk result (λ v. IsThinned width rows.now v.items) }
    ensures wide { IfOk result (λ v. AllWide width v.items) }
    ensures undominated { IfOk result (λ v. AreUndominated v.items) }
{
    let few = without_late(alloc, width, rows)?;
    let left = without_implied(alloc, width, few)?;
    Ok(left)
}

/// The rows without those that are found to be implied by rows before them.
fn without_late(alloc: Global, width: usize, rows: &[Row]) -> Result<Vec<Row>, AllocError>
    requires wide { AllWide width rows.now }
    ensures thinned { IfOk result (λ v. IsThinned width rows.now v.items) }
    ensures wide { IfOk result (λ v. AllWide width v.items) }
{
    let marks = likely_needed(alloc, width, rows)?;
    let mut left = Vec::new(alloc);
    let mut place = 0usize;
    for row in rows {
        add_needed(
            alloc,
            width,
            &mut left,
            row,
            is_marked(marks.as_slice(), place),
        )?;
        place = place.wrapping_add(1);
    }
    Ok(left)
}

/// Whether the row at this place is likely needed.
fn is_marked(marks: &[bool], place: usize) -> bool {
    *marks.get(place).unwrap_or(&false)
}

/// Adds the row, unless it is found to be implied.
fn add_needed(
    alloc: Global,
    width: usize,
    left: &mut Vec<Row>,
    row: &Row,
    is_marked: bool,
) -> Result<(), AllocError>
    requires wide { AllWide width left.old.items }
    requires width { length row.now.coef ≡ width }
    ensures { OnOk result ((rows : List RowValue) → IsThinned width rows left.old.items → IsThinned width (rows ++ row.now ∷ []) left.new.items) }
{
    if is_found_implied(alloc, width, left.as_slice(), row, is_marked)? {
        return Ok(());
    }
    left.push(row.copy())?;
    Ok(())
}

/// The rows without those that are found to be implied by the others.
fn without_implied(alloc: Global, width: usize, rows: Vec<Row>) -> Result<Vec<Row>, AllocError>
    requires wide { AllWide width rows.items }
    ensures thinned { IfOk result (λ v. IsThinned width rows.items v.items) }
    ensures undominated { IfOk result (λ v. AreUndominated v.items) }
{
    let marks = likely_needed(alloc, width, rows.as_slice())?;
    let count = rows.len();
    let mut left = rows;
    for done in 0..count {
        let place = count - 1 - done;
        left = without_one(
            alloc,
            width,
            left,
            place,
            is_marked(marks.as_slice(), place),
        )?;
    }
    Ok(left)
}

/// The rows without the one at this place, if it is found to be implied by the others.
fn without_one(
    alloc: Global,
    width: usize,
    rows: Vec<Row>,
    place: usize,
    is_marked: bool,
) -> Result<Vec<Row>, AllocError>
    requires wide { AllWide width rows.items }
    ensures thinned { IfOk result (λ v. IsThinned width rows.items v.items) }
    ensures undominated { IfOk result (λ v. AreUndominatedFrom (place + 1) rows.items → AreUndominatedFrom place v.items) }
{
    if place >= rows.len() {
        return Ok(rows);
    }
    let others = others_of(alloc, rows.as_slice(), place)?;
    if is_found_implied(alloc, width, others.as_slice(), &rows[place], is_marked)? {
        return Ok(others);
    }
    Ok(rows)
}

/// The rows without the one at this place.
fn others_of(alloc: Global, rows: &[Row], place: usize) -> Result<Vec<Row>, AllocError>
    requires within { place < length rows.now }
    ensures { IfOk result (λ v. v.items ≡ take place rows.now ++ drop (place + 1) rows.now) }
{
    let mut others = Vec::with_capacity(alloc, rows.len())?;
    add_copies(&mut others, &rows[..place])?;
    add_copies(&mut others, &rows[place + 1..])?;
    Ok(others)
}

/// Whether one of the rows dominates the row, or it is shown that it leaves out no point of the rows.
/// A row that is marked is likely needed: nothing is searched for it.
fn is_found_implied(
    alloc: Global,
    width: usize,
    rows: &[Row],
    row: &Row,
    is_marked: bool,
) -> Result<bool, AllocError>
    requires wide { AllWide width rows.now }
    requires width { length row.now.coef ≡ width }
    ensures { IfOk result (λ b. MatchBool b (Entails width rows.now row.now) (Any (λ other. IsDominated row.now other) rows.now → ⊥)) }
{
    if is_dominated(row, rows) {
        return Ok(true);
    }
    if is_marked {
        return Ok(false);
    }
    let implied = is_shown_implied(alloc, width, rows, row)?;
    Ok(implied)
}

/// Whether it is shown that the row leaves out no point of the rows.
fn is_shown_implied(
    alloc: Global,
    width: usize,
    rows: &[Row],
    row: &Row,
) -> Result<bool, AllocError>
    requires wide { AllWide width rows.now }
    requires width { length row.now.coef ≡ width }
    ensures { IfOk result (λ b. IsTrue b → Entails width rows.now row.now) }
{
    match shown_outside(alloc, width, rows, row)? {
        Shown::Empty => Ok(true),
        Shown::Inhabited => Ok(false),
        Shown::Nothing => Ok(false),
    }
}

/// Whether one of the others dominates the row.
pub fn is_dominated(row: &Row, others: &[Row]) -> bool
    ensures { IsTrue result ↔ Any (λ other. IsDominated row.now other) others.now }
{
    others.iter().any(|other| Row::dominated(row, other))
}
