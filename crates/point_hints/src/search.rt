//! A search for a point of a system, with floats: the dual simplex method.
//!
//! What it finds is a hint alone.

use crate::dictionary::{ALMOST_MET, ALMOST_ZERO, Dictionary, LITTLE, NO_ROW, Numbers};
use crate::equations::Unknowns;
use crate::floats::largest;
use lin_row::Row;

/// The most turns of the search.
const TURNS: usize = 300;

/// A point: for each column, counted from 1, a number from the origin, which may be rounded to so
/// many bits behind the point, but for the equations that these rows are: their sums are 0 at each
/// point.
#[derive(Clone, Copy, Debug)]
pub struct Spot {
    pub origin: Unknowns,
    pub values: Numbers,
    pub bits: u32,
    pub equal: [usize; 16],
}

/// Rows, and multiples of them, as floats, that seem to add up to a row that cannot hold.
#[derive(Clone, Copy, Debug)]
pub struct Clash {
    pub rows: [usize; 16],
    pub shares: Numbers,
}

/// What the search finds.
#[derive(Clone, Copy, Debug)]
pub enum Found {
    /// A point seems to be here.
    Inside(Spot),
    /// Multiples of rows seem to add up to a row that cannot hold.
    Conflict(Clash),
    /// Neither.
    Nothing,
}

/// Searches a point.
pub fn search(dictionary: &mut Dictionary, rows: &[Row]) -> Found {
    for _ in 0..TURNS {
        let Some(line) = dictionary.worst() else {
            return Found::Inside(spot_of(dictionary));
        };
        if let Some(place) = dictionary.cheapest(line) {
            dictionary.pivot(line, place);
        } else {
            let found = clash_of(dictionary, line, rows);
            if !dictionary.let_be_zero(line, rows) {
                return Found::Conflict(found);
            }
        }
    }
    Found::Nothing
}

/// The rows of a line without a number above 0.
fn clash_of(dictionary: &Dictionary, at: usize, rows: &[Row]) -> Clash {
    let mut clash = Clash {
        rows: [NO_ROW; 16],
        shares: [0.0; 16],
    };
    let Some(line) = dictionary.lines.get(at) else {
        return clash;
    };
    clash.rows[0] = line.row;
    clash.shares[0] = share(rows, line.row, 1.0);
    for place in 1..LITTLE {
        if line.numbers[place] < -ALMOST_ZERO {
            let row = dictionary.tight[place];
            clash.rows[place] = row;
            clash.shares[place] = share(rows, row, -line.numbers[place]);
        }
    }
    clash
}

/// How many times a row is taken where its line, the largest of its coefficients 1, is taken so
/// many times.
fn share(rows: &[Row], at: usize, times: f64) -> f64 {
    match rows.get(at) {
        None => 0.0,
        Some(row) => times / largest(row),
    }
}

fn spot_of(dictionary: &Dictionary) -> Spot {
    let little = little_of(dictionary);
    let mut values = [0.0; 16];
    for column in 1..LITTLE {
        if let Some(numbers) = dictionary.columns.get(column) {
            values[column] = numbers[0] + numbers[LITTLE] * little;
        }
    }
    Spot {
        origin: dictionary.origin,
        values,
        bits: bits_below(little),
        equal: equal_rows(dictionary),
    }
}

/// By how much the slacks may be above 0, half of what is the most, if that is no more than this.
pub fn little_of(dictionary: &Dictionary) -> f64 {
    let mut little = 64.0f64;
    for line in dictionary.lines.as_slice() {
        if line.numbers[0] > ALMOST_MET && line.numbers[LITTLE] < -ALMOST_ZERO {
            little = little.min(line.numbers[0] / line.numbers[LITTLE] * -0.5);
        }
    }
    little
}

/// To how many bits behind the point 14 columns may be rounded, if their slacks are to change by no
/// more than this.
fn bits_below(little: f64) -> u32 {
    let mut bits = 0u32;
    let mut error = 14.0;
    for _ in 0..40 {
        if error > little {
            error *= 0.5;
            bits = bits.wrapping_add(1);
        }
    }
    bits
}

/// Rows whose slacks are 0 at each point, as many as it takes to say all of them.
fn equal_rows(dictionary: &Dictionary) -> [usize; 16] {
    let mut rows = dictionary.tight;
    for place in 0..16 {
        if dictionary.is_apart(rows[place]) {
            rows[place] = NO_ROW;
        }
    }
    let mut next = 0usize;
    for line in dictionary.lines.as_slice() {
        if !dictionary.is_apart(line.row) && !is_said(&line.numbers, &rows) {
            for _ in 0..16 {
                if next < 16 && rows[next] != NO_ROW {
                    next = next.wrapping_add(1);
                }
            }
            if next < 16 {
                rows[next] = line.row;
            }
        }
    }
    rows
}

/// Whether a line has numbers in the places of these rows alone.
fn is_said(numbers: &Numbers, rows: &[usize; 16]) -> bool {
    for place in 1..LITTLE {
        if numbers[place].abs() > ALMOST_ZERO && rows[place] == NO_ROW {
            return false;
        }
    }
    true
}
