//! A point near where one seems to be, with exact numbers.

use crate::equations::{Equation, NONE_SAID, Unknowns, say_unknowns, solve};
use crate::search::Spot;
use lin_row::{Point, Row};
use std::alloc::{AllocError, Global};
use std::num::saturating_f64_to_i64;

/// The unknown that stands for the denominator.
const DENOMINATOR: usize = 14;

/// The point: some columns are rounded to so many bits more than it takes, and the others are what
/// the equations say.
pub fn point_near(
    alloc: Global,
    width: usize,
    rows: &[Row],
    spot: &Spot,
    more: u32,
) -> Result<Option<Point>, AllocError> {
    let mut equations = Vec::with_capacity(alloc, 16)?;
    for at in spot.equal {
        if let Some(row) = rows.get(at) {
            equations.push(equation_of(row))?;
        }
    }
    let mut left = [false; 16];
    for column in 0..14 {
        left[column] = column < width;
    }
    let Some(count) = say_unknowns(&mut equations, &mut left) else {
        return Ok(None);
    };
    let mut numbers = rounded(spot, &left, spot.bits.wrapping_add(more));
    match solve(equations.as_slice(), count, &mut numbers) {
        None => Ok(None),
        Some(()) => point_of(alloc, width, &numbers),
    }
}

/// That the sum of a row is 0.
fn equation_of(row: &Row) -> Equation {
    let mut numbers = [0; 16];
    let coef = row.coef();
    for column in 0..coef.len().min(14) {
        numbers[column] = coef[column];
    }
    numbers[DENOMINATOR] = row.cst();
    Equation {
        numbers,
        said: NONE_SAID,
    }
}

/// The values of these columns, rounded to so many bits behind the point.
fn rounded(spot: &Spot, left: &[bool; 16], bits: u32) -> Unknowns {
    let mut numbers = [0; 16];
    let mut scale = 1.0;
    let mut denominator = 1i128;
    for bit in 0..100 {
        if bit < bits {
            scale *= 2.0;
            denominator = denominator.wrapping_mul(2);
        }
    }
    for column in 0..14 {
        if left[column] {
            let value = saturating_f64_to_i64((spot.values[column + 1] * scale).round());
            let start = spot.origin[column].wrapping_mul(denominator);
            numbers[column] = start.wrapping_add(i128::from(value));
        }
    }
    numbers[DENOMINATOR] = denominator;
    numbers
}

/// The point of these numbers.
fn point_of(alloc: Global, width: usize, numbers: &Unknowns) -> Result<Option<Point>, AllocError> {
    let den = numbers[DENOMINATOR];
    let mut num = Vec::with_capacity(alloc, width)?;
    for column in 0..width {
        let number = *numbers.get(column).unwrap_or(&0);
        num.push(if den < 0 {
            number.wrapping_neg()
        } else {
            number
        })?;
    }
    Ok(Point::make(num, den.saturating_abs()))
}
