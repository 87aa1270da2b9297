//! The number that is picked for the column after some fixed ones.

ghost use Rattle.std.specs.Prelude.{◌≡◌, ◌⊎◌, ◌+◌, ◌<◌, ◌≤◌, All, length, pos, ◌<ℤ◌, Err, IfOk};
ghost use Rattle.poly_specs.specs.LowestTerms.{IsLowest};
ghost use Rattle.poly_specs.specs.Picks.{IsPick};
ghost use Rattle.poly_specs.specs.Rows.{Point as PointValue, AllWide};
ghost use Rattle.poly_specs.specs.Sets.{HasMember};
ghost use Rattle.poly_specs.specs.Systems.{AreLevels, IsLevel};
ghost use Rattle.column_pick.specs.Nexts.{whole_of, HasFirst, IsNext, AnyPasses, NextPasses};
ghost use Rattle.column_pick.specs.RangePicks.{FormingPasses};
ghost use Rattle.column_pick.specs.Ranges.{IsBetween, AreWithin};

use crate::common::fixed_point;
use crate::picks::pick_between;
use crate::ranges::{Range, range_at, see_kept_point};
use fm_eliminate::{Levels, RowFault, System};
use frac128::Frac;
use lin_row::{Point, Row};
use std::alloc::Global;

/// What is left of the whole system in column `x` and those before it.
fn level_at(levels: &Levels, x: usize) -> &System
    requires levels { AreLevels levels.now.first (whole_of levels.now) levels.now }
    requires from_first { levels.now.first ≤ x }
    requires within { x < (whole_of levels.now).width }
    ensures width { result.now.width ≡ (whole_of levels.now).width }
    ensures level { IsLevel (whole_of levels.now).width (x + 1) (whole_of levels.now).rows result.now.rows }
{
    &levels.systems()[x + 1 - levels.first()]
}

/// The pick of the numbers that are within what rows set for column `x` of the point, in which it
/// has 0. `Passes` where evaluating a row passes 128 bits, or forming the pick.
fn pick_over(rows: &[Row], point: &Point, x: usize) -> Result<Frac, RowFault>
    requires wide { AllWide (length point.now.num) rows.now }
    requires within { x < length point.now.num }
    requires some { HasMember (AreWithin x point.now rows.now) }
    ensures ok { IfOk result (λ v. IsLowest v × IsPick (AreWithin x point.now rows.now) v) }
    ensures passes { result ≡ Err RowFault.Passes → AnyPasses point.now rows.now ⊎ FormingPasses (AreWithin x point.now rows.now) }
{
    see_kept_point(point);
    match range_at(rows, point, x) {
        None => Err(RowFault::Passes),
        Some(range) => pick_within(&range, point.den()),
    }
}

/// The pick of the numbers of a range, whose ends stand over `parts`.
fn pick_within(range: &Range, parts: i128) -> Result<Frac, RowFault>
    requires positive { pos 0 <ℤ parts }
    requires some { HasMember (IsBetween parts range.now) }
    ensures ok { IfOk result (λ v. IsLowest v × IsPick (IsBetween parts range.now) v) }
    ensures passes { result ≡ Err RowFault.Passes → FormingPasses (IsBetween parts range.now) }
{
    match pick_between(range, parts) {
        None => Err(RowFault::Passes),
        Some(number) => Ok(number),
    }
}

/// The pick of the values that the system leaves for the column after the fixed ones. `Passes`
/// where writing these over one denominator, evaluating a row at them or forming the pick passes
/// 128 bits.
pub fn pick_next(alloc: Global, levels: &Levels, numbers: &[Frac]) -> Result<Frac, RowFault>
    requires levels { AreLevels levels.now.first (whole_of levels.now) levels.now }
    requires from_first { levels.now.first ≤ length numbers.now }
    requires within { length numbers.now < (whole_of levels.now).width }
    requires some { (q : PointValue) × HasFirst (whole_of levels.now) numbers.now q }
    ensures ok { IfOk result (λ v. IsLowest v × IsPick (IsNext (whole_of levels.now) numbers.now) v) }
    ensures passes { result ≡ Err RowFault.Passes → NextPasses (whole_of levels.now) numbers.now }
{
    let level = level_at(levels, numbers.len());
    let point = fixed_point(alloc, numbers, level.width())?;
    pick_over(level.rows(), &point, numbers.len())
}
