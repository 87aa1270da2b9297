//! Multiples of rows that cannot hold together, exactly.

ghost use Rattle.std.specs.Prelude.{◌≡◌, ◌↔◌, ◌<◌, ℕ, IsTrue, IfSome, All, length, pos, ◌≤ℤ◌, ◌+ℤ◌, ◌*ℤ◌};
ghost use Rattle.poly_specs.specs.Rows.{coef_at, Allows};
ghost use Rattle.point_hints.specs.Summing.{column_sum, constant_sum, is_strict_part, some_strict, IsRefuted};

use crate::constants::exceeds;
use crate::equations::{Equation, NONE_SAID, Unknowns, say_unknowns, solve};
use crate::ratios::in_ratio;
use crate::search::Clash;
use checked_integers::{kept_product, kept_sum};
use lin_row::Row;
use std::alloc::{AllocError, Global};

/// What each row may have to be multiplied by, rounded.
pub fn guessed(alloc: Global, count: usize, clash: &Clash) -> Result<Vec<i128>, AllocError> {
    spread(alloc, count, &clash.rows, &in_ratio(&clash.shares))
}

/// What each row is to be multiplied by, so that the coefficients of these rows cancel.
pub fn multipliers(
    alloc: Global,
    width: usize,
    rows: &[Row],
    chosen: &[usize; 16],
) -> Result<Option<Vec<i128>>, AllocError> {
    let mut equations = Vec::with_capacity(alloc, 16)?;
    for column in 0..width {
        equations.push(column_of(rows, chosen, column))?;
    }
    let mut left = [false; 16];
    for place in 0..16 {
        left[place] = chosen[place] < rows.len();
    }
    let Some(count) = say_unknowns(&mut equations, &mut left) else {
        return Ok(None);
    };
    let Some(mut numbers) = one_left(&left) else {
        return Ok(None);
    };
    match solve(equations.as_slice(), count, &mut numbers) {
        None => Ok(None),
        Some(()) => Ok(Some(spread(alloc, rows.len(), chosen, &numbers)?)),
    }
}

/// 1 for the one unknown that is left, or nothing where it is not one.
fn one_left(left: &[bool; 16]) -> Option<Unknowns> {
    let mut numbers = [0; 16];
    let mut count = 0usize;
    for place in 0..16 {
        if left[place] {
            numbers[place] = 1;
            count = count.wrapping_add(1);
        }
    }
    if count == 1 { Some(numbers) } else { None }
}

/// That the coefficients in a column cancel.
fn column_of(rows: &[Row], chosen: &[usize; 16], column: usize) -> Equation {
    let mut numbers = [0; 16];
    for place in 0..16 {
        if let Some(row) = rows.get(chosen[place]) {
            numbers[place] = coefficient(row, column);
        }
    }
    Equation {
        numbers,
        said: NONE_SAID,
    }
}

/// The numbers at the places of their rows, the first of them above 0.
fn spread(
    alloc: Global,
    count: usize,
    chosen: &[usize; 16],
    numbers: &Unknowns,
) -> Result<Vec<i128>, AllocError> {
    let mut factors = vec![in alloc; 0; count]?;
    let negative = numbers.iter().any(|number| *number < 0);
    for place in 0..16 {
        if let Some(factor) = factors.get_mut(chosen[place]) {
            *factor = if negative {
                numbers[place].wrapping_neg()
            } else {
                numbers[place]
            };
        }
    }
    Ok(factors)
}

/// The row's coefficient in the column; past the last, 0.
fn coefficient(row: &Row, column: usize) -> i128
    ensures { result ≡ coef_at column row.now }
{
    *row.coef().get(column).unwrap_or(&0)
}

/// Whether non-negative multiples of the rows add up to a row that cannot hold.
pub fn is_refuted(width: usize, rows: &[Row], factors: &[i128]) -> bool
    requires sized { length factors.now ≡ length rows.now }
    ensures { IsTrue result → IsRefuted width factors.now rows.now }
{
    none_negative(factors) && none_left(width, rows, factors) && is_exceeded(rows, factors)
}

fn none_negative(factors: &[i128]) -> bool
    ensures { IsTrue result ↔ All (λ factor. pos 0 ≤ℤ factor) factors.now }
{
    factors.iter().all(|factor| *factor >= 0)
}

/// Whether the sum has no coefficient.
fn none_left(width: usize, rows: &[Row], factors: &[i128]) -> bool
    requires sized { length factors.now ≡ length rows.now }
    ensures { IsTrue result → (x : ℕ) → x < width → column_sum x factors.now rows.now ≡ pos 0 }
{
    for column in 0..width {
        if !is_cancelled(rows, factors, column) {
            return false;
        }
    }
    true
}

fn is_cancelled(rows: &[Row], factors: &[i128], column: usize) -> bool
    requires sized { length factors.now ≡ length rows.now }
    ensures { IsTrue result → column_sum column factors.now rows.now ≡ pos 0 }
{
    match column_sum(rows, factors, column) {
        None => false,
        Some(sum) => sum == 0,
    }
}

/// Whether the sum's constant is not allowed.
fn is_exceeded(rows: &[Row], factors: &[i128]) -> bool
    requires sized { length factors.now ≡ length rows.now }
    ensures { IsTrue result → Allows (some_strict factors.now rows.now) (constant_sum factors.now rows.now) → ⊥ }
{
    match constant_sum(rows, factors) {
        None => false,
        Some(sum) => exceeds(sum, some_strict(rows, factors)),
    }
}

fn column_sum(rows: &[Row], factors: &[i128], column: usize) -> Option<i128>
    requires sized { length factors.now ≡ length rows.now }
    ensures { IfSome result (λ sum. sum ≡ column_sum column factors.now rows.now) }
{
    let mut sum = 0;
    for at in 0..rows.len() {
        sum = with_multiple(sum, factors[at], coefficient(&rows[at], column))?;
    }
    Some(sum)
}

fn constant_sum(rows: &[Row], factors: &[i128]) -> Option<i128>
    requires sized { length factors.now ≡ length rows.now }
    ensures { IfSome result (λ sum. sum ≡ constant_sum factors.now rows.now) }
{
    let mut sum = 0;
    for at in 0..rows.len() {
        sum = with_multiple(sum, factors[at], rows[at].cst())?;
    }
    Some(sum)
}

fn some_strict(rows: &[Row], factors: &[i128]) -> bool
    requires sized { length factors.now ≡ length rows.now }
    ensures { result ≡ some_strict factors.now rows.now }
{
    for at in 0..rows.len() {
        if is_strict_part(factors[at], &rows[at]) {
            return true;
        }
    }
    false
}

fn is_strict_part(factor: i128, row: &Row) -> bool
    ensures { result ≡ is_strict_part factor row.now }
{
    factor > 0 && row.strict()
}

/// The sum with one more multiple. Most factors are 0.
fn with_multiple(sum: i128, factor: i128, number: i128) -> Option<i128>
    ensures { IfSome result (λ more. more ≡ sum +ℤ factor *ℤ number) }
{
    if factor == 0 {
        return Some(sum);
    }
    kept_sum(sum, kept_product(factor, number)?)
}
