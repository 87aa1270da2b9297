// One column of 40 rows is eliminated a thousand times: 20 rows that bound the column from above, 20 from below, of 9 columns.
use crate::rows::row_of;
use fm_eliminate::System;
use lin_row::Row;
use std::alloc::{AllocError, Global};

const WIDTH: usize = 9;

const COLUMN: usize = 8;

const ROUNDS: usize = 1000;

/// A small number that changes from row to row.
fn number(row: u8, factor: u8, less: u8) -> i128 {
    let rest = (u16::from(row) * u16::from(factor)) % 17;
    i128::from(rest) - i128::from(less)
}

/// The coefficient of the column that goes: above 0 in the first 20 rows, below 0 in the others.
fn lead(row: u8) -> i128 {
    if row < 20 {
        1 + i128::from(row % 4)
    } else {
        -1 - i128::from(row % 4)
    }
}

fn row(alloc: Global, row: u8) -> Option<Row> {
    let coef = [
        number(row, 7, 8),
        number(row, 5, 7),
        number(row, 3, 6),
        number(row, 11, 9),
        number(row, 13, 5),
        number(row, 2, 4),
        number(row, 9, 8),
        number(row, 19, 3),
        lead(row),
    ];
    row_of(alloc, &coef, number(row, 23, 10))
}

fn rows(alloc: Global) -> Result<Vec<Row>, AllocError> {
    let mut rows = Vec::new(alloc);
    for k in 0..40u8 {
        if let Some(row) = row(alloc, k) {
            rows.push(row)?;
        }
    }
    Ok(rows)
}

/// How many rows the eliminations gave, added up. One that gave none adds nothing.
fn rows_left(alloc: Global, system: &System) -> usize {
    let mut total = 0usize;
    if COLUMN < system.width() {
        for _ in 0..ROUNDS {
            if let Ok(left) = system.eliminate(alloc, COLUMN) {
                total = total.wrapping_add(left.rows().len());
            }
        }
    }
    total
}

/// What the eliminations left. `None` where memory is wanted for the rows.
pub(crate) fn timed(alloc: Global) -> Option<(usize, usize)> {
    let system = System::make(WIDTH, rows(alloc).ok()?)?;
    Some((rows_left(alloc, &system), ROUNDS))
}
