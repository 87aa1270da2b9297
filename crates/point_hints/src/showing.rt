//! What is shown of a system.

ghost use Rattle.std.specs.Prelude.{IfOk};
ghost use Rattle.point_hints.specs.Showing.{IsShown};

use crate::Shown;
use crate::candidates::point_near;
use crate::certificates::{guessed, is_refuted, multipliers};
use crate::dictionary::Dictionary;
use crate::search::{Clash, Found, Spot, search};
use fm_eliminate::System;
use lin_row::Point;
use std::alloc::{AllocError, Global};

/// How often a point is searched. Floats round, and the more the larger they are: after a search
/// that misled, the next one begins where it ended, with small numbers.
const SEARCHES: usize = 3;

/// Whether the system has a point, if a search with floats finds one, or multiples of its rows that
/// cannot hold together, and exact arithmetic confirms what it found.
pub fn show(alloc: Global, system: &System) -> Result<Shown, AllocError>
    ensures { IfOk result (IsShown system.now) }
{
    let mut dictionary = Dictionary::of_rows(alloc, system.rows())?;
    for _ in 0..SEARCHES {
        let found = search(&mut dictionary, system.rows());
        let shown = shown_by(alloc, system, &found)?;
        if shown != Shown::Nothing {
            return Ok(shown);
        }
        dictionary.recentre(system.rows());
    }
    Ok(Shown::Nothing)
}

fn shown_by(alloc: Global, system: &System, found: &Found) -> Result<Shown, AllocError>
    ensures { IfOk result (IsShown system.now) }
{
    match found {
        Found::Inside(spot) => show_point(alloc, system, spot),
        Found::Conflict(clash) => show_conflict(alloc, system, clash),
        Found::Nothing => Ok(Shown::Nothing),
    }
}

/// Rounds to few bits at first, then to more.
fn show_point(alloc: Global, system: &System, spot: &Spot) -> Result<Shown, AllocError>
    ensures { IfOk result (IsShown system.now) }
{
    for more in [1, 12, 30] {
        let shown = show_near(alloc, system, spot, more)?;
        if shown != Shown::Nothing {
            return Ok(shown);
        }
    }
    Ok(Shown::Nothing)
}

fn show_near(alloc: Global, system: &System, spot: &Spot, more: u32) -> Result<Shown, AllocError>
    ensures { IfOk result (IsShown system.now) }
{
    match point_near(alloc, system.width(), system.rows(), spot, more)? {
        None => Ok(Shown::Nothing),
        Some(point) => Ok(shown_by_point(system, &point)),
    }
}

fn shown_by_point(system: &System, point: &Point) -> Shown
    ensures { IsShown system.now result }
{
    if point.num().len() == system.width() && system.holds(point) == Some(true) {
        return Shown::Inhabited;
    }
    Shown::Nothing
}

/// Rounds the multiples at first, and then solves for them.
fn show_conflict(alloc: Global, system: &System, clash: &Clash) -> Result<Shown, AllocError>
    ensures { IfOk result (IsShown system.now) }
{
    let factors = guessed(alloc, system.rows().len(), clash)?;
    match shown_by_factors(system, factors.as_slice()) {
        Shown::Nothing => show_solved(alloc, system, clash),
        shown => Ok(shown),
    }
}

fn show_solved(alloc: Global, system: &System, clash: &Clash) -> Result<Shown, AllocError>
    ensures { IfOk result (IsShown system.now) }
{
    match multipliers(alloc, system.width(), system.rows(), &clash.rows)? {
        None => Ok(Shown::Nothing),
        Some(factors) => Ok(shown_by_factors(system, factors.as_slice())),
    }
}

fn shown_by_factors(system: &System, factors: &[i128]) -> Shown
    ensures { IsShown system.now result }
{
    let rows = system.rows();
    if factors.len() == rows.len() && is_refuted(system.width(), rows, factors) {
        return Shown::Empty;
    }
    Shown::Nothing
}
