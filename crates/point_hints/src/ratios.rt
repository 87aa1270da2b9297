//! Small integers in given ratios, guessed from floats.

use crate::dictionary::Numbers;
use crate::equations::Unknowns;
use std::num::saturating_f64_to_i64;

/// How far a number may be from an integer that it is taken for.
const NEAR_INTEGER: f64 = 1e-6;

/// Integers nearly in the ratios of these numbers, the first of which is not 0.
pub fn in_ratio(shares: &Numbers) -> Unknowns {
    let by = 1.0 / shares[0];
    let mut times = 1.0;
    for place in 0..16 {
        times *= denominator(shares[place] * by * times);
    }
    let mut numbers = [0; 16];
    for place in 0..16 {
        numbers[place] = i128::from(saturating_f64_to_i64((shares[place] * by * times).round()));
    }
    numbers
}

/// The denominator of a fraction near the number, by its continued fraction.
fn denominator(number: f64) -> f64 {
    let mut last = 0.0;
    let mut this = 1.0;
    let mut rest = number - number.floor();
    for _ in 0..16 {
        let multiple = number * this;
        if (multiple - multiple.round()).abs() < NEAR_INTEGER {
            break;
        }
        let turned = 1.0 / rest;
        let whole = turned.floor();
        rest = turned - whole;
        let next = whole * this + last;
        last = this;
        this = next;
    }
    this
}
