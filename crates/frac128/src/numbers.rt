//! What fractions share and lose of their numbers, and the numbers of sums and products.

ghost use Rattle.std.specs.Prelude.{◌≡◌, pos, ◌<ℤ◌, ◌*ℤ◌, ◌+ℤ◌, int_div, unsigned_abs, SomeIff};
ghost use Rattle.poly_specs.specs.Bits.{FitsBits};
ghost use Rattle.poly_specs.specs.Elimination.{gcd};

use checked_integers::{greatest_divisor, kept_product, kept_sum};

/// The greatest common divisor of two signed numbers.
pub fn shared_factor(a: i128, b: i128) -> i128
    requires positive { pos 0 <ℤ b }
    ensures value { result ≡ pos (gcd (unsigned_abs a) (unsigned_abs b)) }
    ensures positive { pos 0 <ℤ result }
{
    greatest_divisor(a.unsigned_abs(), b.unsigned_abs()) as i128
}

/// What is left of a number without a factor.
pub fn without_factor(number: i128, factor: i128) -> i128
    requires positive { pos 0 <ℤ factor }
    ensures { result ≡ int_div number factor }
{
    number / factor
}

/// The numbers `a * p + c * q` and `b * p`, where none on the way to them passes 128 bits.
pub fn sum_over(a: i128, p: i128, c: i128, q: i128, b: i128) -> Option<(i128, i128)>
    ensures { SomeIff result (FitsBits (a *ℤ p) × FitsBits (c *ℤ q) × FitsBits (a *ℤ p +ℤ c *ℤ q) × FitsBits (b *ℤ p)) (a *ℤ p +ℤ c *ℤ q, b *ℤ p) }
{
    let left = kept_product(a, p)?;
    let right = kept_product(c, q)?;
    let num = kept_sum(left, right)?;
    let den = kept_product(b, p)?;
    Some((num, den))
}

/// The numbers `a * c` and `b * d`, where neither passes 128 bits.
pub fn product_over(a: i128, c: i128, b: i128, d: i128) -> Option<(i128, i128)>
    ensures { SomeIff result (FitsBits (a *ℤ c) × FitsBits (b *ℤ d)) (a *ℤ c, b *ℤ d) }
{
    let num = kept_product(a, c)?;
    let den = kept_product(b, d)?;
    Some((num, den))
}
