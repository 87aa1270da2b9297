//! Systems whose columns are moved or cut.

ghost use Rattle.std.specs.Prelude.{◌≡◌, ◌<◌, ◌≤◌, All, IfOk, length, map, drop, pos};
ghost use Rattle.poly_specs.specs.Columns.{AreDistinct, placed, cut};
ghost use Rattle.poly_specs.specs.Rows.{AllWide};

use crate::System;
use lin_row::Row;
use std::alloc::{AllocError, Global};

impl System {
    /// The system whose column `j` stands in column `to[j]` of `width` columns.
    pub fn shift(&self, alloc: Global, to: &[usize], width: usize) -> Result<System, AllocError>
        requires sized { length to.now ≡ self.now.width }
        requires distinct { AreDistinct to.now }
        requires within { All (λ x. x < width) to.now }
        requires few { width ≤ 14 }
        ensures { IfOk result (λ s. s ≡ record { width = width; rows = map (placed to.now width) self.now.rows }) }
    {
        let rows = placed_rows(alloc, self.rows(), to, width)?;
        Ok(System::of_rows(width, rows))
    }

    /// The system in its first `width` columns. The coefficients in the others are 0.
    pub fn cut(&self, alloc: Global, width: usize) -> Result<System, AllocError>
        requires within { width ≤ self.now.width }
        requires zeros { All (λ r. All (λ c. c ≡ pos 0) (drop width r.coef)) self.now.rows }
        ensures { IfOk result (λ s. s ≡ record { width = width; rows = map (cut width) self.now.rows }) }
    {
        let rows = cut_rows(alloc, self.rows(), width)?;
        Ok(System::of_rows(width, rows))
    }
}

fn placed_rows(
    alloc: Global,
    rows: &[Row],
    to: &[usize],
    width: usize,
) -> Result<Vec<Row>, AllocError>
    requires sized { AllWide (length to.now) rows.now }
    requires distinct { AreDistinct to.now }
    requires within { All (λ x. x < width) to.now }
    requires few { width ≤ 14 }
    ensures items { IfOk result (λ v. v.items ≡ map (placed to.now width) rows.now) }
{
    let mut moved = Vec::with_capacity(alloc, rows.len())?;
    for row in rows {
        moved.push_reserved(row.place(to, width));
    }
    Ok(moved)
}

fn cut_rows(alloc: Global, rows: &[Row], width: usize) -> Result<Vec<Row>, AllocError>
    requires within { All (λ r. width ≤ length r.coef) rows.now }
    requires zeros { All (λ r. All (λ c. c ≡ pos 0) (drop width r.coef)) rows.now }
    ensures items { IfOk result (λ v. v.items ≡ map (cut width) rows.now) }
{
    let mut shorter = Vec::with_capacity(alloc, rows.len())?;
    for row in rows {
        shorter.push_reserved(row.cut(width));
    }
    Ok(shorter)
}
