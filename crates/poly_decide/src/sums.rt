//! Systems with a new column in front that equals the sum of a row.

ghost use Rattle.std.specs.Prelude.{◌≡◌, ◌+◌, ◌≤◌, ◌∷◌, All, IfOk, false, length, map, neg_ℤ, negsuc, pos};
ghost use Rattle.poly_specs.specs.Bits.{FitsBits};
ghost use Rattle.poly_specs.specs.Bounds.{with_sum};
ghost use Rattle.poly_specs.specs.Rows.{AllWide, with_coef};

use fm_eliminate::System;
use lin_row::Row;
use smallvec::SmallVec;
use std::alloc::{AllocError, Global};

/// The system with a new column 0 that equals the row's sum.
pub fn system_with_sum(alloc: Global, s: &System, row: &Row) -> Result<System, AllocError>
    requires width { length row.now.coef ≡ s.now.width }
    requires few { s.now.width ≤ 13 }
    ensures { IfOk result (λ t. t ≡ record { width = s.now.width + 1; rows = with_sum row.now s.now.rows }) }
{
    let rows = rows_with_sum(alloc, s.rows(), row)?;
    Ok(System::make(s.width() + 1, rows).unwrap())
}

fn rows_with_sum(alloc: Global, rows: &[Row], row: &Row) -> Result<Vec<Row>, AllocError>
    requires few { length row.now.coef ≤ 13 }
    requires wide { AllWide (length row.now.coef) rows.now }
    ensures { IfOk result (λ v. v.items ≡ with_sum row.now rows.now) }
{
    let mut made = widened_rows(alloc, rows)?;
    made.push(up_to_sum(alloc, row))?;
    made.push(down_to_sum(alloc, row))?;
    Ok(made)
}

fn widened_rows(alloc: Global, rows: &[Row]) -> Result<Vec<Row>, AllocError>
    requires { All (λ r. length r.coef ≤ 13) rows.now }
    ensures { IfOk result (λ v. v.items ≡ map (λ r. with_coef (pos 0 ∷ r.coef) r) rows.now) }
{
    let mut wider = Vec::with_capacity(alloc, rows.len())?;
    for row in rows {
        wider.push_reserved(widened(alloc, row));
    }
    Ok(wider)
}

/// The row with a new column 0, without a coefficient in it.
fn widened(alloc: Global, row: &Row) -> Row
    requires { length row.now.coef ≤ 13 }
    ensures { result ≡ with_coef (pos 0 ∷ row.now.coef) row.now }
{
    let coef = in_front(alloc, 0, row.coef());
    Row::make_as(alloc, coef.as_slice(), row.cst(), row.strict())
}

/// The new column is at most the row's sum.
fn up_to_sum(alloc: Global, row: &Row) -> Row
    requires { length row.now.coef ≤ 13 }
    ensures { result ≡ record { coef = pos 1 ∷ map neg_ℤ row.now.coef; cst = neg_ℤ row.now.cst; strict = false } }
{
    let opposite = opposites(alloc, row.coef());
    let coef = in_front(alloc, 1, opposite.as_slice());
    Row::make(alloc, coef.as_slice(), opposite_of(row.cst()))
}

/// The new column is at least the row's sum.
fn down_to_sum(alloc: Global, row: &Row) -> Row
    requires { length row.now.coef ≤ 13 }
    ensures { result ≡ record { coef = negsuc 0 ∷ row.now.coef; cst = row.now.cst; strict = false } }
{
    let coef = in_front(alloc, -1, row.coef());
    Row::make(alloc, coef.as_slice(), row.cst())
}

/// The numbers, with one more in front of them.
fn in_front(alloc: Global, first: i128, numbers: &[i128]) -> SmallVec<i128, 14>
    requires { length numbers.now ≤ 13 }
    ensures { result.items ≡ first ∷ numbers.now }
{
    let mut all = SmallVec::new(alloc);
    all.push_reserved(first);
    for number in numbers {
        all.push_reserved(*number);
    }
    all
}

/// The numbers with the other sign.
pub fn opposites(alloc: Global, numbers: &[i128]) -> SmallVec<i128, 14>
    requires few { length numbers.now ≤ 14 }
    requires fit { All FitsBits numbers.now }
    ensures items { result.items ≡ map neg_ℤ numbers.now }
    ensures fit { All FitsBits result.items }
{
    let mut negated = SmallVec::new(alloc);
    for number in numbers {
        negated.push_reserved(opposite_of(*number));
    }
    negated
}

/// The number with the other sign.
pub fn opposite_of(number: i128) -> i128
    requires { FitsBits number }
    ensures value { result ≡ neg_ℤ number }
    ensures fits { FitsBits result }
{
    -number
}
