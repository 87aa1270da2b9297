//! Numbers of a point, as fractions.

ghost use Rattle.std.specs.Prelude.{◌≡◌, ◌++◌, ◌∷◌, [], ◌<◌, ◌≤◌, ◌<ℤ◌, All, IfOk, OnOk, drop, length, map, pos, slice_index_or};
ghost use Rattle.poly_specs.specs.Arithmetic.{lowest};
ghost use Rattle.poly_specs.specs.Bits.{FitsBits, NonePasses};
ghost use Rattle.poly_specs.specs.Denominators.{common_numbers};
ghost use Rattle.poly_specs.specs.Fractions.{fractions};
ghost use Rattle.column_pick.specs.Picked.{numbers_of};
ghost use Rattle.gap_runs.specs.Befores.{common_point};

use frac128::{Frac, over_common};
use lin_row::Point;
use std::alloc::{AllocError, Global};

fn push(numbers: &mut Vec<Frac>, number: Frac) -> Result<(), AllocError>
    ensures { OnOk result (numbers.new.items ≡ numbers.old.items ++ number ∷ []) }
{
    numbers.push(number)?;
    Ok(())
}

/// The numbers of a point, in lowest terms.
pub fn lowest_of(alloc: Global, point: &Point) -> Result<Vec<Frac>, AllocError>
    ensures { IfOk result (λ v. v.items ≡ numbers_of point.now) }
{
    let mut numbers = Vec::new(alloc);
    for i in 0..point.num().len() {
        push(&mut numbers, number_at(point, i))?;
    }
    Ok(numbers)
}

/// A number of the point, in lowest terms.
pub fn number_at(point: &Point, i: usize) -> Frac
    requires { i < length point.now.num }
    ensures { result ≡ lowest (record { num = slice_index_or point.now.num i (pos 0); den = point.now.den }) }
{
    Frac::make(point.num()[i], point.den())
}

fn copied(alloc: Global, nums: &[i128]) -> Result<Vec<i128>, AllocError>
    ensures { IfOk result (λ v. v.items ≡ nums.now) }
{
    let mut copies = Vec::new(alloc);
    copies.extend_from_slice(nums)?;
    Ok(copies)
}

/// The point of these numbers over this denominator.
fn point_of(alloc: Global, nums: &[i128], den: i128) -> Result<Point, AllocError>
    requires positive { pos 0 <ℤ den }
    requires fit { NonePasses nums.now }
    requires den_fits { FitsBits den }
    ensures { IfOk result (λ p. p ≡ record { num = nums.now; den = den }) }
{
    let copies = copied(alloc, nums)?;
    Ok(Point::make(copies, den).unwrap())
}

/// The point of these fractions, over their least common denominator.
fn common_of(alloc: Global, numbers: &[Frac]) -> Result<Point, AllocError>
    requires few { length numbers.now ≤ 14 }
    requires fit { NonePasses (common_numbers numbers.now) }
    ensures { IfOk result (λ p. p ≡ common_point numbers.now) }
{
    let common = over_common(alloc, numbers).unwrap();
    point_of(alloc, common.nums.as_slice(), common.den)
}

/// The numbers from a place on.
pub fn from_place(numbers: &[Frac], from: usize) -> &[Frac]
    requires { from ≤ length numbers.now }
    ensures { result.now ≡ drop from numbers.now }
{
    &numbers[from..]
}

/// The point's numbers from a column on, over their least common denominator.
pub fn part_from(alloc: Global, point: &Point, from: usize) -> Result<Point, AllocError>
    requires within { from ≤ length point.now.num }
    requires few { length point.now.num ≤ 14 }
    ensures { IfOk result (λ p. p ≡ common_point (drop from (numbers_of point.now))) }
{
    // No number of the point passes, as its readers say.
    point.den();
    let numbers = lowest_of(alloc, point)?;
    common_of(alloc, from_place(numbers.as_slice(), from))
}
