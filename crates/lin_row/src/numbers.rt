//! Sums of products, which may pass 128 bits and are fast where the numbers are small, and division by a common divisor.

ghost use Rattle.std.specs.Prelude.{◌≡◌, ◌↔◌, ◌<◌, ◌^◌, ◌/◌, false, max, All, map, pos, ◌<ℤ◌, ◌*ℤ◌, ◌+ℤ◌, ◌≤◌, length, int_div, unsigned_abs, SomeIff, IsTrue};
ghost use Rattle.poly_specs.specs.Bits.{FitsBits};
ghost use Rattle.poly_specs.specs.Elimination.{gcd, divisor, divided};

use checked_integers::{greatest_divisor, kept_product, kept_sum};
use smallvec::SmallVec;
use std::alloc::Global;

/// The sum with one more product, where neither passes 128 bits.
pub fn add_product(sum: i128, a: i128, b: i128) -> Option<i128>
    ensures { SomeIff result (FitsBits (a *ℤ b) × FitsBits (sum +ℤ a *ℤ b)) (sum +ℤ a *ℤ b) }
{
    let product = kept_product(a, b)?;
    kept_sum(sum, product)
}

/// Whether the number is so small that two products of such numbers, and their sum, fit.
#[inline]
pub fn is_small(number: i128) -> bool
    ensures { IsTrue result ↔ (unsigned_abs number < 2 ^ 62) }
{
    number > -0x4000_0000_0000_0000 && number < 0x4000_0000_0000_0000
}

/// Whether all numbers are small.
#[inline]
pub fn all_small(numbers: &[i128]) -> bool
    ensures { IsTrue result ↔ All (λ z. unsigned_abs z < 2 ^ 62) numbers.now }
{
    numbers.iter().all(|number| is_small(*number))
}

/// A small number fits into 64 bits.
#[inline]
pub fn narrow(number: i128) -> i64
    requires { unsigned_abs number < 2 ^ 62 }
    ensures { result ≡ number }
{
    number as i64
}

/// The product of two small numbers: one multiplication of 64 bits.
#[inline]
fn small_product(a: i128, b: i128) -> i128
    requires a { unsigned_abs a < 2 ^ 62 }
    requires b { unsigned_abs b < 2 ^ 62 }
    ensures value { result ≡ a *ℤ b }
    ensures size { unsigned_abs (a *ℤ b) < 2 ^ 124 }
{
    wide_product(narrow(a), narrow(b))
}

/// The product of two numbers of 64 bits.
#[inline]
fn wide_product(a: i64, b: i64) -> i128
    ensures { result ≡ a *ℤ b }
{
    i128::from(a) * i128::from(b)
}

/// The sum of two products of small numbers.
#[inline]
fn small_sum(p: i128, a: i128, q: i128, b: i128) -> i128
    requires p { unsigned_abs p < 2 ^ 62 }
    requires a { unsigned_abs a < 2 ^ 62 }
    requires q { unsigned_abs q < 2 ^ 62 }
    requires b { unsigned_abs b < 2 ^ 62 }
    ensures value { result ≡ p *ℤ a +ℤ q *ℤ b }
    ensures fits { FitsBits (p *ℤ a) × FitsBits (q *ℤ b) × FitsBits (p *ℤ a +ℤ q *ℤ b) }
{
    small_product(p, a) + small_product(q, b)
}

/// The sum of a number's product and another's. The factors come in 64 bits, so that it is seen
/// that one multiplication of 64 bits is enough.
#[inline]
pub fn narrow_sum(p: i64, a: i128, q: i64, b: i128) -> i128
    requires p { unsigned_abs p < 2 ^ 62 }
    requires a { unsigned_abs a < 2 ^ 62 }
    requires q { unsigned_abs q < 2 ^ 62 }
    requires b { unsigned_abs b < 2 ^ 62 }
    ensures value { result ≡ p *ℤ a +ℤ q *ℤ b }
    ensures fits { FitsBits (p *ℤ a) × FitsBits (q *ℤ b) × FitsBits (p *ℤ a +ℤ q *ℤ b) }
{
    small_sum(i128::from(p), a, i128::from(q), b)
}

/// The sum of two products, where none of the three passes 128 bits.
#[inline]
pub fn sum_of_two(p: i128, a: i128, q: i128, b: i128) -> Option<i128>
    ensures { SomeIff result (FitsBits (p *ℤ a) × FitsBits (q *ℤ b) × FitsBits (p *ℤ a +ℤ q *ℤ b)) (p *ℤ a +ℤ q *ℤ b) }
{
    if is_small(p) && is_small(a) && is_small(q) && is_small(b) {
        return Some(small_sum(p, a, q, b));
    }
    large_sum(p, a, q, b)
}

/// The sum of two products of any numbers.
#[inline(never)]
fn large_sum(p: i128, a: i128, q: i128, b: i128) -> Option<i128>
    ensures { SomeIff result (FitsBits (p *ℤ a) × FitsBits (q *ℤ b) × FitsBits (p *ℤ a +ℤ q *ℤ b)) (p *ℤ a +ℤ q *ℤ b) }
{
    let left = kept_product(p, a)?;
    let right = kept_product(q, b)?;
    kept_sum(left, right)
}

/// The quotient of a division, fast where the numbers are small.
#[inline]
pub fn whole_part(x: u128, y: u128) -> u128
    requires { 0 < y }
    ensures { result ≡ x / y }
{
    if y == 1 {
        return x;
    }
    if x < 0x1_0000_0000_0000_0000 && y < 0x1_0000_0000_0000_0000 {
        return u128::from(x as u64 / y as u64);
    }
    x / y
}

/// The numbers, in the row's own places.
pub fn inline_copy(alloc: Global, numbers: &[i128]) -> SmallVec<i128, 14>
    requires { length numbers.now ≤ 14 }
    ensures items { result.items ≡ numbers.now }
    ensures inline { result.capacity ≡ 14 }
{
    SmallVec::from_slice(alloc, numbers).unwrap()
}

/// A number divided by one that divides it.
fn quotient(number: i128, factor: i128) -> i128
    requires positive { pos 0 <ℤ factor }
    ensures { result ≡ int_div number factor }
{
    if factor == 1 {
        return number;
    }
    if is_small(number) && is_small(factor) {
        return small_quotient(narrow(number), narrow(factor));
    }
    number / factor
}

fn small_quotient(number: i64, factor: i64) -> i128
    requires positive { pos 0 <ℤ factor }
    ensures { result ≡ int_div number factor }
{
    i128::from(number / factor)
}

/// The numbers, each divided by the factor.
#[inline(never)]
fn quotients(alloc: Global, numbers: &[i128], factor: i128) -> SmallVec<i128, 14>
    requires few { length numbers.now ≤ 14 }
    requires positive { pos 0 <ℤ factor }
    ensures items { result.items ≡ map (λ c. int_div c factor) numbers.now }
    ensures inline { result.capacity ≡ 14 }
{
    let mut divided = SmallVec::new(alloc);
    for number in numbers {
        divided.push_reserved(quotient(*number, factor));
    }
    divided
}

/// Divides each of the numbers by the factor.
fn divide(numbers: &mut SmallVec<i128, 14>, factor: i128)
    requires few { length numbers.old.items ≤ 14 }
    requires inline { numbers.old.capacity ≡ 14 }
    requires positive { pos 0 <ℤ factor }
    ensures items { numbers.new.items ≡ map (λ c. int_div c factor) numbers.old.items }
    ensures inline { numbers.new.capacity ≡ 14 }
{
    if factor != 1 {
        *numbers = quotients(*numbers.allocator(), numbers.as_slice(), factor);
    }
}

/// Divides the coefficients and the constant of a row by their greatest common divisor, and gives
/// the constant.
pub fn reduce(coef: &mut SmallVec<i128, 14>, cst: i128) -> i128
    requires few { length coef.old.items ≤ 14 }
    requires inline { coef.old.capacity ≡ 14 }
    requires coef_fits { All FitsBits coef.old.items }
    requires cst_fits { FitsBits cst }
    ensures coef { coef.new.items ≡ (divided (record { coef = coef.old.items; cst = cst; strict = false })).coef }
    ensures cst { result ≡ (divided (record { coef = coef.old.items; cst = cst; strict = false })).cst }
    ensures inline { coef.new.capacity ≡ 14 }
{
    let factor = row_divisor(coef.as_slice(), cst);
    divide(coef, factor);
    quotient(cst, factor)
}

/// The greatest common divisor of a row's numbers, or 0 where all are 0.
fn common_divisor(coef: &[i128], cst: i128) -> u128
    requires coef_fits { All FitsBits coef.now }
    requires cst_fits { FitsBits cst }
    ensures value { max 1 result ≡ divisor (record { coef = coef.now; cst = cst; strict = false }) }
    ensures bound { result < 2 ^ 127 }
{
    let mut shared = 0;
    for c in coef {
        if shared == 1 {
            return 1;
        }
        shared = greatest_divisor(shared, c.unsigned_abs());
    }
    greatest_divisor(shared, cst.unsigned_abs())
}

/// The greatest common divisor of a row's numbers, or 1 where all are 0.
fn row_divisor(coef: &[i128], cst: i128) -> i128
    requires coef_fits { All FitsBits coef.now }
    requires cst_fits { FitsBits cst }
    ensures value { result ≡ pos (divisor (record { coef = coef.now; cst = cst; strict = false })) }
    ensures positive { pos 0 <ℤ result }
{
    common_divisor(coef, cst).max(1) as i128
}
