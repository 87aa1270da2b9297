//! Whether a row leaves out a point of a system, where that is quickly shown.

ghost use Rattle.std.specs.Prelude.{◌≡◌, ◌≤◌, ◌++◌, ◌∷◌, [], IfOk, OnOk, length};
ghost use Rattle.poly_specs.specs.Elimination.{divided};
ghost use Rattle.poly_specs.specs.Rows.{AllWide};
ghost use Rattle.poly_decide.specs.Outside.{opposite_row, IsShownOutside};

use crate::sums::{opposite_of, opposites};
use fm_eliminate::System;
use lin_row::Row;
use point_hints::{Shown, show};
use std::alloc::{AllocError, Global};

/// What is shown of the points of the rows that the row leaves out.
pub fn shown_outside(
    alloc: Global,
    width: usize,
    rows: &[Row],
    row: &Row,
) -> Result<Shown, AllocError>
    requires wide { AllWide width rows.now }
    requires width { length row.now.coef ≡ width }
    ensures { IfOk result (IsShownOutside width rows.now row.now) }
{
    let system = with_opposite(alloc, width, rows, row)?;
    let shown = show(alloc, &system)?;
    Ok(shown)
}

/// The system of the rows and the opposite of one more.
fn with_opposite(alloc: Global, width: usize, rows: &[Row], row: &Row) -> Result<System, AllocError>
    requires wide { AllWide width rows.now }
    requires width { length row.now.coef ≡ width }
    ensures { IfOk result (λ s. s ≡ record { width = width; rows = rows.now ++ divided (opposite_row row.now) ∷ [] }) }
{
    let other = opposite(alloc, row);
    let all = all_with(alloc, rows, other)?;
    Ok(System::of_rows(width, all))
}

/// Copies of the rows, and then one more.
fn all_with(alloc: Global, rows: &[Row], row: Row) -> Result<Vec<Row>, AllocError>
    ensures { IfOk result (λ v. v.items ≡ rows.now ++ row ∷ []) }
{
    let mut all = Vec::with_capacity(alloc, rows.len().saturating_add(1))?;
    add_copies(&mut all, rows)?;
    all.push(row)?;
    Ok(all)
}

/// Appends copies of the rows.
pub fn add_copies(rows: &mut Vec<Row>, more: &[Row]) -> Result<(), AllocError>
    ensures { OnOk result (rows.new.items ≡ rows.old.items ++ more.now) }
{
    for row in more {
        rows.push(row.copy())?;
    }
    Ok(())
}

/// The row that holds exactly where the given one does not.
fn opposite(alloc: Global, row: &Row) -> Row
    ensures value { result ≡ divided (opposite_row row.now) }
    ensures few { length row.now.coef ≤ 14 }
{
    let coef = opposites(alloc, row.coef());
    Row::make_as(
        alloc,
        coef.as_slice(),
        opposite_of(row.cst()),
        !row.strict(),
    )
}
