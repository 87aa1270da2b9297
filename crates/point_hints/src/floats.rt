//! Floats near the numbers of rows.

use lin_row::Row;
use std::num::nearest_isize_to_f64;

const TWO_TO_THE_64: f64 = 18446744073709551616.0;

/// A float near the number.
pub fn near(number: i128) -> f64 {
    match isize::try_from(number) {
        Ok(small) => nearest_isize_to_f64(small),
        Err(_) => {
            nearest_isize_to_f64(isize::try_from(number >> 64).unwrap_or(0)) * TWO_TO_THE_64
        }
    }
}

/// The largest coefficient of a row, without its sign; 1 where all are 0.
pub fn largest(row: &Row) -> f64 {
    let mut most = 0.0f64;
    for coef in row.coef() {
        most = most.max(near(*coef).abs());
    }
    if most > 0.0 { most } else { 1.0 }
}
