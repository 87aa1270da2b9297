//! The point that is picked from the levels of a system.

ghost use Rattle.std.specs.Prelude.{◌≡◌, ◌+◌, ◌<◌, ◌≤◌, ◌++◌, ◌∷◌, [], All, length, slice_index_or, pos, Err, IfOk, OnOk};
ghost use Rattle.poly_specs.specs.Arithmetic.{lowest};
ghost use Rattle.poly_specs.specs.Fractions.{Fraction};
ghost use Rattle.poly_specs.specs.LowestTerms.{IsLowest};
ghost use Rattle.poly_specs.specs.Picks.{IsPick};
ghost use Rattle.poly_specs.specs.Rows.{Point as PointValue, AllHold, over};
ghost use Rattle.poly_specs.specs.Systems.{AreLevels, no_system};
ghost use Rattle.column_pick.specs.Fixed.{padded};
ghost use Rattle.column_pick.specs.Nexts.{whole_of, HasFirst, IsNext, NextPasses};
ghost use Rattle.column_pick.specs.Picked.{numbers_of, IsPickedPoint, PickingPasses, ArePickedSoFar};

use crate::common::fixed_point;
use crate::nexts::pick_next;
use crate::ranges::see_kept_point;
use fm_eliminate::{Levels, RowFault};
use frac128::Frac;
use lin_row::Point;
use std::alloc::{AllocError, Global};

fn push(numbers: &mut Vec<Frac>, number: Frac) -> Result<(), AllocError>
    ensures { OnOk result (numbers.new.items ≡ numbers.old.items ++ number ∷ []) }
{
    numbers.push(number)?;
    Ok(())
}

/// The numbers of a point, in lowest terms.
fn lowest_of(alloc: Global, point: &Point) -> Result<Vec<Frac>, AllocError>
    ensures { IfOk result (λ v. v.items ≡ numbers_of point.now) }
{
    let mut numbers = Vec::new(alloc);
    for i in 0..point.num().len() {
        push(&mut numbers, number_at(point, i))?;
    }
    Ok(numbers)
}

/// A number of the point, in lowest terms.
fn number_at(point: &Point, i: usize) -> Frac
    requires { i < length point.now.num }
    ensures { result ≡ lowest (record { num = slice_index_or point.now.num i (pos 0); den = point.now.den }) }
{
    Frac::make(point.num()[i], point.den())
}

/// The number of columns of the whole system.
fn width_of(levels: &Levels) -> usize
    requires { AreLevels levels.now.first (whole_of levels.now) levels.now }
    ensures value { result ≡ (whole_of levels.now).width }
    ensures few { result ≤ 14 }
{
    levels.systems()[0].width()
}

/// Appends the number that is picked for the next column.
fn add_number(alloc: Global, levels: &Levels, numbers: &mut Vec<Frac>) -> Result<(), RowFault>
    requires levels { AreLevels levels.now.first (whole_of levels.now) levels.now }
    requires from_first { levels.now.first ≤ length numbers.old.items }
    requires within { length numbers.old.items < (whole_of levels.now).width }
    requires some { (q : PointValue) × HasFirst (whole_of levels.now) numbers.old.items q }
    ensures ok { OnOk result ((v : Fraction) × (numbers.new.items ≡ numbers.old.items ++ v ∷ []) × IsLowest v × IsPick (IsNext (whole_of levels.now) numbers.old.items) v) }
    ensures passes { result ≡ Err RowFault.Passes → NextPasses (whole_of levels.now) numbers.old.items }
{
    let number = pick_next(alloc, levels, numbers.as_slice())?;
    push(numbers, number)?;
    Ok(())
}

/// Appends the numbers that are picked for all further columns.
fn add_numbers(
    alloc: Global,
    levels: &Levels,
    numbers: &mut Vec<Frac>,
    width: usize,
) -> Result<(), RowFault>
    requires levels { AreLevels levels.now.first (whole_of levels.now) levels.now }
    requires width { width ≡ (whole_of levels.now).width }
    requires fits { levels.now.first ≤ width }
    requires sized { length numbers.old.items ≡ levels.now.first }
    requires lowest { All IsLowest numbers.old.items }
    requires some { (q : PointValue) × HasFirst (whole_of levels.now) numbers.old.items q }
    ensures sized { OnOk result (length numbers.new.items ≡ width) }
    ensures lowest { OnOk result (All IsLowest numbers.new.items) }
    ensures picked { OnOk result (ArePickedSoFar (whole_of levels.now) numbers.old.items numbers.new.items) }
    ensures passes { result ≡ Err RowFault.Passes → PickingPasses (whole_of levels.now) numbers.old.items }
{
    for _ in levels.first()..width {
        add_number(alloc, levels, numbers)?;
    }
    Ok(())
}

/// Extends a point column by column, from the levels of a system: each further number is the pick
/// of the values that the system leaves for its column.
///
/// The point has the columns before the first level's, and the first level holds there. The answer
/// is written over the least common denominator of its numbers. `Passes` only where, at the numbers
/// that are picked, one of these passes 128 bits: evaluating a plain level row at the numbers fixed
/// so far, forming a middle, or writing the numbers fixed so far over their least common
/// denominator.
pub fn pick(alloc: Global, levels: &Levels, fixed: &Point) -> Result<Point, RowFault>
    requires levels { AreLevels levels.now.first (whole_of levels.now) levels.now }
    requires fits { levels.now.first ≤ (whole_of levels.now).width }
    requires sized { length fixed.now.num ≡ levels.now.first }
    requires inside { AllHold (slice_index_or levels.now.systems 0 no_system).rows (over fixed.now.den (padded (whole_of levels.now).width fixed.now.num)) }
    ensures ok { IfOk result (λ p. IsPickedPoint (whole_of levels.now) (numbers_of fixed.now) p) }
    ensures passes { result ≡ Err RowFault.Passes → PickingPasses (whole_of levels.now) (numbers_of fixed.now) }
{
    let width = width_of(levels);
    let mut numbers = lowest_of(alloc, fixed)?;
    see_kept_point(fixed);
    add_numbers(alloc, levels, &mut numbers, width)?;
    fixed_point(alloc, numbers.as_slice(), width)
}
