//! The elimination of one column.

ghost use Rattle.std.specs.Prelude.{◌≡◌, ◌+◌, ◌<◌, ◌≤◌, ◌++◌, List, All, Err, IfOk, IfErr, OnOk, length, map, filter, pos, ◌<ℤ◌};
ghost use Rattle.std.specs.List.{flat_map};
ghost use Rattle.poly_specs.specs.Bits.{SomePasses};
ghost use Rattle.poly_specs.specs.Elimination.{formed, free_of, lowers};
ghost use Rattle.poly_specs.specs.Lists.{In};
ghost use Rattle.poly_specs.specs.Rows.{Row as RowValue, AllWide, coef_at};
ghost use Rattle.poly_specs.specs.Systems.{IsProjection, IsEquation};
ghost use Rattle.fm_eliminate.specs.Leaving.{IsLeft, IsPivot, is_needed, combinations, replaced};

use crate::coefficients::coefficient;
use crate::kept_rows::KeptRows;
use crate::pivots::find_pivot;
use crate::{RowFault, System};
use lin_row::{Passes, Row};
use std::alloc::{AllocError, Global};

/// The row where it is without column `x`, else its combination with one of a pair of rows.
fn replace(row: &Row, lower: &Row, upper: &Row, x: usize) -> Result<Row, Passes>
    requires within { x < length row.now.coef }
    requires lower_wide { length lower.now.coef ≡ length row.now.coef }
    requires upper_wide { length upper.now.coef ≡ length row.now.coef }
    requires lower { coef_at x lower.now <ℤ pos 0 }
    requires upper { pos 0 <ℤ coef_at x upper.now }
    ensures ok { IfOk result (λ r. r ≡ replaced x lower.now upper.now row.now) }
    ensures passes { IfErr result (λ e. (rows : List RowValue) → In row.now rows → In lower.now rows → In upper.now rows → SomePasses (formed x rows)) }
{
    let coef = coefficient(row, x);
    if coef == 0 {
        return Ok(row.copy());
    }
    if coef < 0 {
        return Row::combine(row, upper, x);
    }
    Row::combine(lower, row, x)
}

/// Adds the rows, each replaced where it has a coefficient in column `x`.
fn add_replaced(
    kept: &mut KeptRows,
    rows: &[Row],
    lower: &Row,
    upper: &Row,
    x: usize,
) -> Result<(), RowFault>
    requires within { x < length lower.now.coef }
    requires wide { AllWide (length lower.now.coef) rows.now }
    requires pivot { IsPivot x rows.now lower.now upper.now }
    ensures ok { OnOk result (IsLeft (kept.old ++ map (replaced x lower.now upper.now) rows.now) kept.new) }
    ensures few { OnOk result (length kept.new ≤ length kept.old + length (filter is_needed (map (replaced x lower.now upper.now) rows.now))) }
    ensures passes { result ≡ Err RowFault.Passes → SomePasses (formed x rows.now) }
{
    for row in rows {
        kept.add_row(replace(row, lower, upper, x)?)?;
    }
    Ok(())
}

/// How many rows to make room for: as many as may be left, where they are not too many.
fn room(rows: &[Row], x: usize) -> usize {
    let mut lowers = 0usize;
    let mut uppers = 0usize;
    for row in rows {
        match row.coef().get(x) {
            Some(coef) if *coef < 0 => lowers = lowers.wrapping_add(1),
            Some(coef) if *coef > 0 => uppers = uppers.wrapping_add(1),
            _ => {}
        }
    }
    rows.len()
        .saturating_add(lowers.saturating_mul(uppers))
        .min(512)
}

/// Adds the rows without column `x`.
fn add_free(kept: &mut KeptRows, rows: &[Row], x: usize) -> Result<(), AllocError>
    requires within { All (λ r. x < length r.coef) rows.now }
    ensures { OnOk result (IsLeft (kept.old ++ free_of x rows.now) kept.new) }
{
    for row in rows {
        if coefficient(row, x) == 0 {
            kept.add_row(row.copy())?;
        }
    }
    Ok(())
}

/// Adds the combinations of a lower row with the upper ones.
fn add_pairs_of(kept: &mut KeptRows, lower: &Row, rows: &[Row], x: usize) -> Result<(), RowFault>
    requires within { x < length lower.now.coef }
    requires wide { AllWide (length lower.now.coef) rows.now }
    requires lower { coef_at x lower.now <ℤ pos 0 }
    requires among { In lower.now rows.now }
    ensures ok { OnOk result (IsLeft (kept.old ++ combinations x rows.now lower.now) kept.new) }
    ensures passes { result ≡ Err RowFault.Passes → SomePasses (formed x rows.now) }
{
    for upper in rows {
        if coefficient(upper, x) > 0 {
            kept.add_row(Row::combine(lower, upper, x)?)?;
        }
    }
    Ok(())
}

/// Adds the combinations of each lower row with the upper ones.
fn add_pairs(kept: &mut KeptRows, rows: &[Row], width: usize, x: usize) -> Result<(), RowFault>
    requires within { x < width }
    requires wide { AllWide width rows.now }
    ensures ok { OnOk result (IsLeft (kept.old ++ flat_map (combinations x rows.now) (lowers x rows.now)) kept.new) }
    ensures passes { result ≡ Err RowFault.Passes → SomePasses (formed x rows.now) }
{
    for lower in rows {
        if coefficient(lower, x) < 0 {
            add_pairs_of(kept, lower, rows, x)?;
        }
    }
    Ok(())
}

impl System {
    /// What is left without column `x`: it holds exactly where some value of the column makes the
    /// system hold.
    ///
    /// Where an equation has a coefficient in the column, that is a closed row and its negation,
    /// the first such row alone is combined with the others. Else each lower row is combined with
    /// each upper one. The rows without the column come first, in their order, then the
    /// combinations, in the order of the lower rows and for each of the upper ones; with an
    /// equation all stand in the order of the rows. A row that a kept one dominates, or that always
    /// holds, is left out, and one that dominates a kept row takes its place. So equal systems leave
    /// equal ones.
    ///
    /// `Passes` where a number that is formed passes 128 bits, and `Memory` where there is none.
    pub fn eliminate(&self, alloc: Global, x: usize) -> Result<System, RowFault>
        requires { x < self.now.width }
        ensures ok { IfOk result (λ s. (s.width ≡ self.now.width) × IsProjection self.now.width x self.now.rows s.rows) }
        ensures pivot { (r : RowValue) → IsEquation x self.now.rows r → IfOk result (λ s. length s.rows + 2 ≤ length self.now.rows) }
        ensures passes { result ≡ Err RowFault.Passes → SomePasses (formed x self.now.rows) }
    {
        let left = match find_pivot(self.rows(), x) {
            Some((lower, upper)) => self.left_of_equation(alloc, lower, upper, x)?,
            None => self.left_of_pairs(alloc, x)?,
        };
        Ok(System::of_rows(self.width(), left))
    }

    fn left_of_equation(
        &self,
        alloc: Global,
        lower: &Row,
        upper: &Row,
        x: usize,
    ) -> Result<Vec<Row>, RowFault>
        requires within { x < self.now.width }
        requires pivot { IsPivot x self.now.rows lower.now upper.now }
        ensures ok { IfOk result (λ v. IsProjection self.now.width x self.now.rows v.items) }
        ensures few { IfOk result (λ v. length v.items + 2 ≤ length self.now.rows) }
        ensures passes { result ≡ Err RowFault.Passes → SomePasses (formed x self.now.rows) }
    {
        let mut kept = KeptRows::with_capacity(alloc, self.rows().len())?;
        add_replaced(&mut kept, self.rows(), lower, upper, x)?;
        Ok(kept.into_rows())
    }

    fn left_of_pairs(&self, alloc: Global, x: usize) -> Result<Vec<Row>, RowFault>
        requires { x < self.now.width }
        ensures ok { IfOk result (λ v. IsProjection self.now.width x self.now.rows v.items) }
        ensures passes { result ≡ Err RowFault.Passes → SomePasses (formed x self.now.rows) }
    {
        let mut kept = KeptRows::with_capacity(alloc, room(self.rows(), x))?;
        add_free(&mut kept, self.rows(), x)?;
        add_pairs(&mut kept, self.rows(), self.width(), x)?;
        Ok(kept.into_rows())
    }
}
