//! Cases of systems and of what is left of them without a column.

ghost use Rattle.std.specs.Prelude.{◌≡◌, ◌≤◌, All, IsTrue, drop, length, pos};

use crate::rows::{all_zero, are_below, are_distinct};
use case_texts::holding::{held, held_at_each};
use case_texts::texts::{maybe_system, parts, place, places, point, system};
use case_texts::{Missing, writing};
use fm_eliminate::System;
use lin_row::Row;
use std::alloc::Global;

fn eliminated(alloc: Global, given: &System, x: usize) -> Result<String, Missing> {
    if x < given.width() {
        writing::system(alloc, &given.eliminate(alloc, x)?)
    } else {
        Err(Missing::Form)
    }
}

fn levels(alloc: Global, given: &System, first: usize) -> Result<String, Missing> {
    if first <= given.width() {
        writing::systems(alloc, given.levels(alloc, first)?.systems())
    } else {
        Err(Missing::Form)
    }
}

/// `left COLUMN | SYSTEM | POINTS`: whether what is left without the column holds at each of the points.
fn left(alloc: Global, args: &str) -> Result<String, Missing> {
    let (x, rest) = parts(args, '|')?;
    let (given, points) = parts(rest, '|')?;
    let (x, given) = (place(x)?, system(alloc, given)?);
    if x < given.width() {
        held_at_each(alloc, &given.eliminate(alloc, x)?, points)
    } else {
        Err(Missing::Form)
    }
}

fn joined(alloc: Global, mut given: System, more: &System) -> Result<String, Missing> {
    if given.width() != more.width() {
        return Err(Missing::Form);
    }
    given.and(more.rows())?;
    writing::system(alloc, &given)
}

fn shifted(alloc: Global, given: &System, to: &[usize], width: usize) -> Result<String, Missing> {
    if to.len() == given.width() && width <= 14 && are_distinct(to) && are_below(to, width) {
        writing::system(alloc, &given.shift(alloc, to, width)?)
    } else {
        Err(Missing::Form)
    }
}

/// Whether no row has a coefficient in the columns from `width` on.
fn are_shorter(rows: &[Row], width: usize) -> bool
    requires { All (λ r. width ≤ length r.coef) rows.now }
    ensures { IsTrue result → All (λ r. All (λ c. c ≡ pos 0) (drop width r.coef)) rows.now }
{
    rows.iter().all(|row| all_zero(&row.coef()[width..]))
}

fn shortened(alloc: Global, given: &System, width: usize) -> Result<String, Missing> {
    if width <= given.width() && are_shorter(given.rows(), width) {
        writing::system(alloc, &given.cut(alloc, width)?)
    } else {
        Err(Missing::Form)
    }
}

fn copied(alloc: Global, given: &System) -> Result<String, Missing> {
    let copy = given.copy(alloc)?;
    if copy == *given {
        writing::system(alloc, &copy)
    } else {
        Err(Missing::Form)
    }
}

/// `shift WIDTH | PLACES | SYSTEM`
fn shifted_of(alloc: Global, args: &str) -> Result<String, Missing> {
    let (width, rest) = parts(args, '|')?;
    let (to, given) = parts(rest, '|')?;
    shifted(
        alloc,
        &system(alloc, given)?,
        &places(alloc, to)?,
        place(width)?,
    )
}

/// The answer to a case of a number or a point and a system: `eliminate COLUMN | SYSTEM`, `levels FIRST | SYSTEM`,
/// `shorten WIDTH | SYSTEM`, `holds POINT | SYSTEM`, `and SYSTEM | SYSTEM`.
fn pair(alloc: Global, word: &str, first: &str, given: &System) -> Result<String, Missing> {
    match word {
        "eliminate" => eliminated(alloc, given, place(first)?),
        "levels" => levels(alloc, given, place(first)?),
        "shorten" => shortened(alloc, given, place(first)?),
        "holds" => held(alloc, given, &point(alloc, first)?),
        "and" => joined(alloc, system(alloc, first)?, given),
        _ => Err(Missing::Form),
    }
}

/// The answer to a case of systems: `system SYSTEM`, `copy SYSTEM`, and those above.
pub(crate) fn answer(alloc: Global, word: &str, args: &str) -> Result<String, Missing> {
    match word {
        "system" => match maybe_system(alloc, args)? {
            Some(made) => writing::system(alloc, &made),
            None => writing::word(alloc, "none"),
        },
        "copy" => copied(alloc, &system(alloc, args)?),
        "shift" => shifted_of(alloc, args),
        "left" => left(alloc, args),
        _ => {
            let (first, given) = parts(args, '|')?;
            pair(alloc, word, first, &system(alloc, given)?)
        }
    }
}
