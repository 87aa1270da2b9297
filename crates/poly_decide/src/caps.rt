//! The bound that rows set on their column 0 from above.

ghost use Rattle.std.specs.Prelude.{◌≡◌, ◌↔◌, ◌<◌, ◌++◌, ◌∷◌, [], List, All, IsTrue, length, pos, neg_ℤ, ◌<ℤ◌, ◌||◌};
ghost use Rattle.poly_specs.specs.Arithmetic.{lowest};
ghost use Rattle.poly_specs.specs.Bits.{FitsBits};
ghost use Rattle.poly_specs.specs.Fractions.{IsFraction};
ghost use Rattle.poly_specs.specs.Rows.{Row as RowValue, coef_at};
ghost use Rattle.poly_decide.specs.Caps.{HoldsAt, IsUpTo, IsCap, IsLeastCap};

use frac128::Frac;
use lin_row::Row;
use std::cmp::Ordering;

/// The numbers up to an end, which is not one of them where it is open.
#[derive(Clone, Copy)]
pub struct Cap {
    pub end: Frac,
    pub is_open: bool,
}

/// The cap of the rows where all columns but the first are 0. `None` where no row sets one.
pub fn least_cap(rows: &[Row]) -> Option<Cap>
    requires { All (λ r. 0 < length r.coef) rows.now }
    ensures { IsLeastCap rows.now result }
{
    let mut least = None;
    for row in rows {
        least = with_row(least, row);
    }
    least
}

/// The cap of one row more.
fn with_row(least: Option<Cap>, row: &Row) -> Option<Cap>
    requires { 0 < length row.now.coef }
    ensures { (rows : List RowValue) → IsLeastCap rows least → IsLeastCap (rows ++ row.now ∷ []) result }
{
    if !is_capping(row) {
        return least;
    }
    let cap = cap_of(row);
    match least {
        None => Some(cap),
        Some(other) => Some(lesser(other, cap)),
    }
}

fn lead(row: &Row) -> i128
    requires { 0 < length row.now.coef }
    ensures { result ≡ coef_at 0 row.now }
{
    row.coef()[0]
}

/// Whether the row sets a cap.
fn is_capping(row: &Row) -> bool
    requires { 0 < length row.now.coef }
    ensures { IsTrue result ↔ (pos 0 <ℤ coef_at 0 row.now) }
{
    lead(row) > 0
}

/// The number at which `lead * x + cst` is 0.
fn root(cst: i128, lead: i128) -> Frac
    requires fits { FitsBits cst }
    requires positive { pos 0 <ℤ lead }
    ensures { result ≡ lowest (record { num = neg_ℤ cst; den = lead }) }
{
    Frac::make(-cst, lead)
}

/// The cap of a row with a positive coefficient.
fn cap_of(row: &Row) -> Cap
    requires some { 0 < length row.now.coef }
    requires positive { pos 0 <ℤ coef_at 0 row.now }
    ensures { IsCap result (HoldsAt row.now) }
{
    Cap {
        end: root(row.cst(), lead(row)),
        is_open: row.strict(),
    }
}

fn lesser(a: Cap, b: Cap) -> Cap
    requires left { IsFraction a.end }
    requires right { IsFraction b.end }
    ensures { IsCap result (λ v. IsUpTo a.is_open a.end v × IsUpTo b.is_open b.end v) }
{
    match a.end.cmp(&b.end) {
        Ordering::Less => a,
        Ordering::Greater => b,
        Ordering::Equal => Cap {
            end: a.end,
            is_open: either(a.is_open, b.is_open),
        },
    }
}

fn either(a: bool, b: bool) -> bool
    ensures { result ≡ (a || b) }
{
    a || b
}
