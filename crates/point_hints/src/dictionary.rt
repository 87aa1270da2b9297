//! The rows of a system as equations between floats.
//!
//! Each row has a slack, which is what its sum lacks to 0: the row holds where its slack is at
//! least 0. Some slacks have taken the places of columns, and each line says what another slack is,
//! by them. Where they are 0, the slack of a line is the line's constant.
//!
//! A point inside is wanted, where rounding does no harm: each slack is to be above 0 by a little.
//! Slacks that are 0 at each point are let be 0.

use crate::equations::Unknowns;
use crate::floats::{largest, near};
use lin_row::Row;
use std::alloc::{AllocError, Global};
use std::num::saturating_f64_to_i64;

/// A constant, a number for each place from 1 on, and in the last place what the constant changes
/// where the slacks are to be above 0 by a little.
pub type Numbers = [f64; 16];

/// The place of what a little changes.
pub const LITTLE: usize = 15;

/// What counts as 0 among the numbers of lines.
pub const ALMOST_ZERO: f64 = 1e-9;

/// What counts as 0 among their constants.
pub const ALMOST_MET: f64 = 1e-8;

/// Stands for the row of a place that no slack has taken.
pub const NO_ROW: usize = usize::MAX;

/// What the slack of a row is.
#[derive(Clone, Copy, Debug)]
pub struct Line {
    pub numbers: Numbers,
    pub row: usize,
}

/// The lines; for each column whose place a slack has taken what it is; in each place the row
/// of its slack; and for each row whether its slack is to be above 0 by a little.
#[derive(Drop)]
pub struct Dictionary {
    pub lines: Vec<Line>,
    pub columns: Vec<Numbers>,
    pub tight: [usize; 16],
    /// From where the columns are counted.
    pub origin: Unknowns,
    costs: Numbers,
    apart: Vec<bool>,
}

impl Dictionary {
    /// The dictionary of rows. Their slacks have taken the places of all columns that they can.
    pub fn of_rows(alloc: Global, rows: &[Row]) -> Result<Dictionary, AllocError> {
        let mut lines = Vec::with_capacity(alloc, rows.len())?;
        for (place, row) in rows.iter().enumerate() {
            lines.push(line_of(row, place))?;
        }
        let mut dictionary = Dictionary {
            lines,
            columns: vec![in alloc; [0.0; 16]; 16]?,
            tight: [NO_ROW; 16],
            origin: [0; 16],
            costs: [0.0; 16],
            apart: vec![in alloc; true; rows.len()]?,
        };
        dictionary.take_places();
        Ok(dictionary)
    }

    fn take_places(&mut self) {
        for column in 1..LITTLE {
            if let Some(at) = self.largest_in(column) {
                self.pivot(at, column);
            }
        }
        let mut cost = 1.0;
        for column in 1..LITTLE {
            cost += 0.01;
            self.costs[column] = cost;
        }
    }

    /// The line with the largest number in the place.
    fn largest_in(&self, place: usize) -> Option<usize> {
        let mut found = None;
        let mut most = 1e-7;
        for (at, line) in self.lines.iter().enumerate() {
            let number = line.numbers[place % 16].abs();
            if number > most {
                found = Some(at);
                most = number * 1.0001;
            }
        }
        found
    }

    /// Lets the slack of a line take this place, and what had it be said.
    pub fn pivot(&mut self, at: usize, place: usize) {
        let Some(line) = self.lines.get(at) else {
            return;
        };
        let row = line.row;
        let solved = solved(&line.numbers, place);
        for line in self.lines.as_mut_slice() {
            put(&mut line.numbers, place, &solved);
        }
        for numbers in self.columns.as_mut_slice() {
            put(numbers, place, &solved);
        }
        put(&mut self.costs, place, &solved);
        let out = self.tight[place % 16];
        self.tight[place % 16] = row;
        if out == NO_ROW {
            self.say_column(at, place, solved);
        } else if let Some(line) = self.lines.get_mut(at) {
            *line = Line {
                numbers: solved,
                row: out,
            };
        }
    }

    fn say_column(&mut self, at: usize, column: usize, solved: Numbers) {
        if let Some(numbers) = self.columns.get_mut(column) {
            *numbers = solved;
        }
        if at < self.lines.len() {
            self.lines.swap_remove(at);
        }
    }

    /// The line that is missed most.
    pub fn worst(&self) -> Option<usize> {
        let mut found = None;
        let mut least = 0.0;
        for (at, line) in self.lines.iter().enumerate() {
            let missed = missed(&line.numbers);
            if missed < least {
                found = Some(at);
                least = missed;
            }
        }
        found
    }

    /// The place whose slack raises the constant of a line at the least cost.
    pub fn cheapest(&self, at: usize) -> Option<usize> {
        let line = self.lines.get(at)?;
        let mut found = None;
        let mut least = f64::INFINITY;
        let mut most = 0.0;
        for place in 1..LITTLE {
            let number = line.numbers[place];
            if self.tight[place] == NO_ROW || number <= ALMOST_ZERO {
                continue;
            }
            let price = self.costs[place] / number;
            if price < least - 1e-12 || (price < least + 1e-12 && number > most) {
                found = Some(place);
                least = price;
                most = number;
            }
        }
        found
    }

    /// Lets the slacks of a line be 0 that has no number above 0, and the constant 0. Whether some
    /// were not before; not where a strict row is among them.
    pub fn let_be_zero(&mut self, at: usize, rows: &[Row]) -> bool {
        let Some(line) = self.lines.get_mut(at) else {
            return false;
        };
        if line.numbers[0] < -ALMOST_MET || is_strict(rows, line.row) {
            return false;
        }
        let numbers = line.numbers;
        let mut some = false;
        if close(self.apart.as_mut_slice(), line.row) {
            line.numbers[LITTLE] += 1.0;
            some = true;
        }
        for place in 1..LITTLE {
            if numbers[place] < -ALMOST_ZERO {
                let row = self.tight[place];
                if is_strict(rows, row) {
                    return false;
                }
                if close(self.apart.as_mut_slice(), row) {
                    self.come_near(place);
                    some = true;
                }
            }
        }
        some
    }

    /// Lets the slack of a place be 0.
    fn come_near(&mut self, place: usize) {
        for line in self.lines.as_mut_slice() {
            line.numbers[LITTLE] -= line.numbers[place % 16];
        }
        for numbers in self.columns.as_mut_slice() {
            numbers[LITTLE] -= numbers[place % 16];
        }
    }

    /// Counts the columns from the integers nearest to where the slacks of the places are 0, and
    /// computes the constants anew. The slacks of the places are small there, and so the floats exact,
    /// which they are not where the constants went through large ones.
    pub fn recentre(&mut self, rows: &[Row]) {
        self.move_origin();
        for apart in self.apart.as_mut_slice() {
            *apart = true;
        }
        let mut slacks = [0.0; 16];
        let mut taken = [0.0; 16];
        for place in 1..LITTLE {
            if let Some(row) = rows.get(self.tight[place]) {
                slacks[place] = slack_at(row, &self.origin);
                taken[place] = 1.0;
            }
        }
        for line in self.lines.as_mut_slice() {
            if let Some(row) = rows.get(line.row) {
                let slack = slack_at(row, &self.origin);
                renew(&mut line.numbers, slack, -1.0, &slacks, &taken);
            }
        }
        for numbers in self.columns.as_mut_slice() {
            renew(numbers, 0.0, 0.0, &slacks, &taken);
        }
    }

    fn move_origin(&mut self) {
        for column in 0..14 {
            if let Some(numbers) = self.columns.get(column + 1) {
                let number = saturating_f64_to_i64(numbers[0].round());
                self.origin[column] = self.origin[column].wrapping_add(i128::from(number));
            }
        }
    }

    /// Whether the slack of a row is to be above 0.
    pub fn is_apart(&self, row: usize) -> bool {
        *self.apart.get(row).unwrap_or(&true)
    }
}

fn is_strict(rows: &[Row], at: usize) -> bool {
    match rows.get(at) {
        None => false,
        Some(row) => row.strict(),
    }
}

/// Lets the slack of a row be 0. Whether it was to be above 0.
fn close(apart: &mut [bool], row: usize) -> bool {
    match apart.get_mut(row) {
        None => false,
        Some(apart) => {
            let was = *apart;
            *apart = false;
            was
        }
    }
}

/// The line of a row: the largest of its coefficients becomes 1.
fn line_of(row: &Row, place: usize) -> Line {
    let scale = -1.0 / largest(row);
    let coef = row.coef();
    let mut numbers = [0.0; 16];
    numbers[0] = near(row.cst()) * scale;
    for column in 0..coef.len().min(14) {
        numbers[column + 1] = near(coef[column]) * scale;
    }
    numbers[LITTLE] = -1.0;
    Line {
        numbers,
        row: place,
    }
}

/// Computes a line's constant, and what a little changes in it, from the slacks at the origin: its
/// own, and those of the places that slacks have taken.
fn renew(numbers: &mut Numbers, slack: f64, little: f64, slacks: &Numbers, taken: &Numbers) {
    let mut constant = slack;
    let mut change = little;
    for place in 1..LITTLE {
        constant -= numbers[place] * slacks[place];
        change += numbers[place] * taken[place];
    }
    numbers[0] = constant;
    numbers[LITTLE] = change;
}

/// The slack of a row at the origin, where the largest of its coefficients is 1.
fn slack_at(row: &Row, origin: &Unknowns) -> f64 {
    near(sum_at(row, origin)) * (-1.0 / largest(row))
}

/// The sum of a row at the origin, if it does not pass 128 bits.
fn sum_at(row: &Row, origin: &Unknowns) -> i128 {
    let coef = row.coef();
    let mut sum = row.cst();
    for column in 0..coef.len().min(14) {
        if origin[column] != 0 {
            sum = sum.wrapping_add(coef[column].wrapping_mul(origin[column]));
        }
    }
    sum
}

/// The line, solved for what has this place.
fn solved(numbers: &Numbers, place: usize) -> Numbers {
    let by = 1.0 / numbers[place % 16];
    let mut solved = [0.0; 16];
    for other in 0..16 {
        solved[other] = -numbers[other] * by;
    }
    solved[place % 16] = by;
    solved
}

/// Puts what the place is into a line.
fn put(numbers: &mut Numbers, place: usize, solved: &Numbers) {
    let times = numbers[place % 16];
    if times == 0.0 {
        return;
    }
    numbers[place % 16] = 0.0;
    for other in 0..16 {
        numbers[other] += times * solved[other];
    }
}

/// By how much the line is missed: below 0 if at all.
fn missed(numbers: &Numbers) -> f64 {
    if numbers[0] < -ALMOST_MET {
        return numbers[0];
    }
    if numbers[0] < ALMOST_MET && numbers[LITTLE] < -ALMOST_MET {
        return numbers[LITTLE] * ALMOST_ZERO;
    }
    0.0
}
