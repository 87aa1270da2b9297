//! Which rows are likely needed: none of the others implies them.
//!
//! From a point inside, rays go towards each row. The row that a ray meets first is needed, if the
//! floats are right. Nothing rests on that: a mark is a hint alone.

use crate::dictionary::{ALMOST_ZERO, Dictionary, LITTLE, NO_ROW, Numbers};
use crate::search::{Found, little_of, search};
use lin_row::Row;
use std::alloc::{AllocError, Global};

/// By how much farther the second row along a ray is than the first, at least.
const APART: f64 = 1.000001;

/// Where rays begin: what the slack of each place is there, and that of each line.
#[derive(Drop)]
struct Start {
    places: Numbers,
    lines: Vec<f64>,
}

/// What a ray meets first: how far the row is, and the next one.
#[derive(Clone, Copy, Debug)]
struct Meeting {
    row: usize,
    far: f64,
    next: f64,
}

/// A mark for each row that likely no others imply, by floats; also for a row of an equation, if
/// the rows say no more equations than there are columns.
pub fn likely_needed(alloc: Global, width: usize, rows: &[Row]) -> Result<Vec<bool>, AllocError> {
    let mut marks = vec![in alloc; false; rows.len()]?;
    if are_few_equations(width, rows) {
        return Ok(vec![in alloc; true; rows.len()]?);
    }
    let mut dictionary = Dictionary::of_rows(alloc, rows)?;
    if let Found::Inside(spot) = search(&mut dictionary, rows) {
        mark_equations(rows, &spot.equal, marks.as_mut_slice());
        let start = near_corner(alloc, &dictionary)?;
        if let Some(middle) = mark_around(&dictionary, &start, marks.as_mut_slice()) {
            let start = moved(alloc, &dictionary, &start, middle)?;
            mark_around(&dictionary, &start, marks.as_mut_slice());
        }
    }
    Ok(marks)
}

/// Whether the rows are equations, and no more than there are columns.
fn are_few_equations(width: usize, rows: &[Row]) -> bool {
    let mut are = rows.len() / 2 <= width;
    for row in rows {
        are = are && rows.iter().any(|other| are_opposite(row, other));
    }
    are
}

/// Whether two rows say that a sum is 0.
fn are_opposite(row: &Row, other: &Row) -> bool {
    if row.cst().wrapping_neg() != other.cst() || row.coef().len() != other.coef().len() {
        return false;
    }
    let mut are = true;
    for (number, opposite) in row.coef().iter().zip(other.coef()) {
        are = are && number.wrapping_neg() == *opposite;
    }
    are
}

/// Marks these rows, whose sums are 0 at each point, and their opposites.
fn mark_equations(rows: &[Row], equal: &[usize; 16], marks: &mut [bool]) {
    for at in equal {
        if let Some(row) = rows.get(*at) {
            mark(marks, *at);
            for (place, other) in rows.iter().enumerate() {
                if are_opposite(row, other) {
                    mark(marks, place);
                }
            }
        }
    }
}

fn mark(marks: &mut [bool], at: usize) {
    if let Some(mark) = marks.get_mut(at) {
        *mark = true;
    }
}

/// The point that the search ended with.
fn near_corner(alloc: Global, dictionary: &Dictionary) -> Result<Start, AllocError> {
    let little = little_of(dictionary);
    let mut places = [0.0; 16];
    for place in 1..LITTLE {
        if may_move(dictionary, place) {
            places[place] = little;
        }
    }
    let mut lines = Vec::with_capacity(alloc, dictionary.lines.len())?;
    for line in dictionary.lines.as_slice() {
        let own = if dictionary.is_apart(line.row) {
            little
        } else {
            0.0
        };
        lines.push(line.numbers[0] + line.numbers[LITTLE] * little + own)?;
    }
    Ok(Start { places, lines })
}

/// Whether the slack of a place may change.
fn may_move(dictionary: &Dictionary, place: usize) -> bool {
    let row = dictionary.tight[place % 16];
    row != NO_ROW && dictionary.is_apart(row)
}

/// The start with these slacks of the places.
fn moved(
    alloc: Global,
    dictionary: &Dictionary,
    start: &Start,
    places: Numbers,
) -> Result<Start, AllocError> {
    let mut change = [0.0; 16];
    for place in 1..LITTLE {
        change[place] = places[place] - start.places[place];
    }
    let mut lines = Vec::with_capacity(alloc, dictionary.lines.len())?;
    for (line, slack) in dictionary.lines.iter().zip(start.lines.as_slice()) {
        lines.push(*slack + slope(&line.numbers, &change))?;
    }
    Ok(Start { places, lines })
}

/// What a line changes along a ray.
fn slope(numbers: &Numbers, ray: &Numbers) -> f64 {
    let mut sum = 0.0;
    for place in 1..LITTLE {
        sum += numbers[place] * ray[place];
    }
    sum
}

/// Marks the rows that rays towards all unmarked rows meet first. The middle of where they meet them.
fn mark_around(dictionary: &Dictionary, start: &Start, marks: &mut [bool]) -> Option<Numbers> {
    let mut sum = [0.0; 16];
    let mut count = 0.0;
    for place in 1..LITTLE {
        if may_move(dictionary, place) && marks.get(dictionary.tight[place]) == Some(&false) {
            let mut ray = [0.0; 16];
            ray[place] = -1.0;
            count += mark_along(dictionary, start, &ray, marks, &mut sum);
        }
    }
    for line in dictionary.lines.as_slice() {
        if dictionary.is_apart(line.row) && marks.get(line.row) == Some(&false) {
            let ray = towards(dictionary, &line.numbers);
            count += mark_along(dictionary, start, &ray, marks, &mut sum);
        }
    }
    if count == 0.0 {
        return None;
    }
    for place in 1..LITTLE {
        sum[place] /= count;
    }
    Some(sum)
}

/// The ray on which the slack of a line falls fastest.
fn towards(dictionary: &Dictionary, numbers: &Numbers) -> Numbers {
    let mut ray = [0.0; 16];
    for place in 1..LITTLE {
        if may_move(dictionary, place) {
            ray[place] = -numbers[place];
        }
    }
    ray
}

/// Marks the row that a ray meets first, and adds where it meets it. 1 if it meets one, else 0.
fn mark_along(
    dictionary: &Dictionary,
    start: &Start,
    ray: &Numbers,
    marks: &mut [bool],
    sum: &mut Numbers,
) -> f64 {
    let meeting = met(dictionary, start, ray);
    if meeting.row == NO_ROW {
        return 0.0;
    }
    if meeting.next > meeting.far * APART {
        mark(marks, meeting.row);
    }
    for place in 1..LITTLE {
        sum[place] += start.places[place] + ray[place] * meeting.far;
    }
    1.0
}

/// What a ray meets first.
fn met(dictionary: &Dictionary, start: &Start, ray: &Numbers) -> Meeting {
    let mut meeting = Meeting {
        row: NO_ROW,
        far: f64::INFINITY,
        next: f64::INFINITY,
    };
    for place in 1..LITTLE {
        if may_move(dictionary, place) {
            meeting.meet(dictionary.tight[place], start.places[place], ray[place]);
        }
    }
    for (line, slack) in dictionary.lines.iter().zip(start.lines.as_slice()) {
        if dictionary.is_apart(line.row) {
            meeting.meet(line.row, *slack, slope(&line.numbers, ray));
        }
    }
    meeting
}

impl Meeting {
    /// Takes a row whose slack is this and changes so.
    fn meet(&mut self, row: usize, slack: f64, slope: f64) {
        if slope >= -ALMOST_ZERO {
            return;
        }
        let far = slack / -slope;
        if far < self.far {
            self.next = self.far;
            self.far = far;
            self.row = row;
        } else if far < self.next {
            self.next = far;
        }
    }
}
