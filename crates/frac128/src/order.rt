//! The order of fractions, by continued division.

ghost use Rattle.std.specs.Prelude.{◌≡◌, ◌<◌, ◌*◌, pos, ◌<ℤ◌, ◌*ℤ◌};
ghost use Rattle.std.specs.Ordering.{nat_cmp, int_cmp};

use std::cmp::Ordering;

/// The order of `a / b` and `c / d`.
fn compare(a: u128, b: u128, c: u128, d: u128) -> Ordering
    requires b_positive { 0 < b }
    requires d_positive { 0 < d }
    ensures { result ≡ nat_cmp (a * d) (c * b) }
{
    let left = a / b;
    let right = c / d;
    if left != right {
        return left.cmp(&right);
    }
    let left_rest = a % b;
    let right_rest = c % d;
    if left_rest == 0 || right_rest == 0 {
        return left_rest.cmp(&right_rest);
    }
    // Of two numbers below 1, the one with the smaller reciprocal is the larger.
    compare(d, right_rest, b, left_rest)
}

/// The order of the signed `a / b` and `c / d`.
pub fn compare_signed(a: i128, b: i128, c: i128, d: i128) -> Ordering
    requires b_positive { pos 0 <ℤ b }
    requires d_positive { pos 0 <ℤ d }
    ensures { result ≡ int_cmp (a *ℤ d) (c *ℤ b) }
{
    let (b, d) = (b.unsigned_abs(), d.unsigned_abs());
    match (a < 0, c < 0) {
        (false, false) => compare(a.unsigned_abs(), b, c.unsigned_abs(), d),
        (false, true) => Ordering::Greater,
        (true, false) => Ordering::Less,
        (true, true) => compare(c.unsigned_abs(), d, a.unsigned_abs(), b),
    }
}
