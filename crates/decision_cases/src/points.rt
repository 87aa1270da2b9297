//! Picks from the levels of a system, after numbers that are fixed.

ghost use Rattle.std.specs.Prelude.{◌≡◌, ◌≤◌, ◌++◌, IsTrue, IfOk, IfSome, OnOk, length, pos, replicate};
ghost use Rattle.poly_specs.specs.Rows.{AllHold, over};
ghost use Rattle.column_pick.specs.Fixed.{padded};

use case_texts::{Missing, writing};
use fm_eliminate::{Levels, System};
use lin_row::Point;
use poly_decide::pick;
use std::alloc::{AllocError, Global};

fn push_zeros(numbers: &mut Vec<i128>, count: usize) -> Result<(), AllocError>
    ensures { OnOk result (numbers.new.items ≡ numbers.old.items ++ replicate count (pos 0)) }
{
    for _ in 0..count {
        numbers.push(0)?;
    }
    Ok(())
}

/// The point with 0 in its further columns.
fn pad(alloc: Global, point: &Point, width: usize) -> Result<Option<Point>, AllocError>
    requires { length point.now.num ≤ width }
    ensures { IfOk result (λ o. IfSome o (λ p. p ≡ over point.now.den (padded width point.now.num))) }
{
    let mut num = point.num().to_vec(alloc)?;
    push_zeros(&mut num, width - point.num().len())?;
    Ok(Point::make(num, point.den()))
}

/// Whether the system holds at the point, as far as evaluating it tells.
fn is_inside(level: &System, start: &Point) -> bool
    requires { length start.now.num ≡ level.now.width }
    ensures { IsTrue result → AllHold level.now.rows start.now }
{
    match level.holds(start) {
        Some(held) => held,
        None => false,
    }
}

/// The point that is picked after the fixed one, where the first level holds there.
pub(crate) fn picked(alloc: Global, fixed: &Point, s: &System) -> Result<String, Missing> {
    let first = fixed.num().len();
    if first > s.width() {
        return Err(Missing::Form);
    }
    let levels = s.levels(alloc, first)?;
    let Some(start) = pad(alloc, fixed, s.width())? else {
        return Err(Missing::Form);
    };
    let level = &levels.systems()[0];
    if start.num().len() != level.width() || !is_inside(level, &start) {
        return Err(Missing::Form);
    }
    writing::point(alloc, &pick(alloc, &levels, fixed)?)
}
