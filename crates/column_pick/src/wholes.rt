//! The whole number of a range that is nearest to 0.

ghost use Rattle.std.specs.Prelude.{◌≡◌, ◌↔◌, IsTrue, not, Some, SomeIff, MatchBool, MatchOption, pos, ℤ, neg_ℤ, ◌+ℤ◌, ◌*ℤ◌, ◌<ℤ◌, ◌≤ℤ◌};
ghost use Rattle.poly_specs.specs.Bits.{FitsBits};
ghost use Rattle.column_pick.specs.Ranges.{IsUnder, whole, IsFloor, IsShort, IsLeastWhole, HasNoWhole};

use crate::parts::see_kept;
use crate::ranges::{Cap, negated};

/// The whole part of a quotient.
fn floor(number: i128, by: i128) -> i128
    requires number { pos 0 ≤ℤ number }
    requires by { pos 0 <ℤ by }
    ensures { IsFloor number by result }
{
    number / by
}

/// The whole part of a quotient by a product, which need not be formed.
fn floor_of_two(number: i128, by: i128, parts: i128) -> i128
    requires number { pos 0 ≤ℤ number }
    requires by { pos 0 <ℤ by }
    requires parts { pos 0 <ℤ parts }
    ensures { IsFloor number (by *ℤ parts) result }
{
    floor(floor(number, by), parts)
}

/// The number, or one less.
fn less_one_if(less: bool, number: i128) -> i128
    requires { MatchBool less (pos 0 <ℤ number) (pos 0 ≤ℤ number) }
    ensures value { MatchBool less (result +ℤ pos 1 ≡ number) (result ≡ number) }
    ensures least { pos 0 ≤ℤ result }
{
    if less { number - 1 } else { number }
}

/// How far the opposites of the cap's numbers are from 0, times the end's denominator: they exceed
/// this.
fn distance(near: &Cap) -> i128
    requires { IsShort near.now }
    ensures value { MatchBool (not near.now.is_open) (result +ℤ pos 1 ≡ neg_ℤ near.now.end.num) (result ≡ neg_ℤ near.now.end.num) }
    ensures least { pos 0 ≤ℤ result }
{
    less_one_if(!near.is_open, negated(near.end.num()))
}

/// The number after this one, where it does not pass 128 bits.
fn next(number: i128) -> Option<i128>
    requires { pos 0 ≤ℤ number }
    ensures { SomeIff result (FitsBits (number +ℤ pos 1)) (number +ℤ pos 1) }
{
    number.checked_add(1)
}

/// The least whole number above 0 whose opposite is within the cap. `None` where it passes 128 bits.
pub fn least_whole(near: &Cap, parts: i128) -> Option<i128>
    requires positive { pos 0 <ℤ parts }
    requires short { IsShort near.now }
    ensures { (n : ℤ) × IsLeastWhole parts near.now n × SomeIff result (FitsBits n) n }
{
    let last = floor_of_two(distance(near), near.end.den(), parts);
    next(last)
}

fn is_at_most(a: i128, b: i128) -> bool
    ensures { IsTrue result ↔ (a ≤ℤ b) }
{
    a <= b
}

/// Whether a whole number above 0 is within the cap.
fn is_whole_under(number: i128, cap: &Cap, parts: i128) -> bool
    requires number { pos 0 <ℤ number }
    requires positive { pos 0 <ℤ parts }
    ensures { IsTrue result ↔ IsUnder parts (Some cap.now) (whole number) }
{
    let end = cap.end.num();
    if end <= 0 {
        see_kept(&cap.end);
        return false;
    }
    let last = floor_of_two(less_one_if(cap.is_open, end), cap.end.den(), parts);
    is_at_most(number, last)
}

/// The least whole number above 0 that is within the one cap, while its opposite is within the
/// other.
pub fn nearest_whole(near: &Cap, far: &Cap, parts: i128) -> Option<i128>
    requires positive { pos 0 <ℤ parts }
    requires short { IsShort near.now }
    ensures { MatchOption result (HasNoWhole parts near.now far.now) (λ n. IsLeastWhole parts near.now n × IsUnder parts (Some far.now) (whole n)) }
{
    see_kept(&far.end);
    let number = least_whole(near, parts)?;
    if !is_whole_under(number, far, parts) {
        return None;
    }
    Some(number)
}
