//! The greatest common divisor.

ghost use Rattle.std.specs.Prelude.{◌≡◌, ◌<◌, ◌%◌};
ghost use Rattle.poly_specs.specs.Elimination.{gcd};

/// The greatest common divisor.
#[inline]
pub fn greatest_divisor(a: u128, b: u128) -> u128
    ensures { result ≡ gcd a b }
{
    if a < 0x1_0000_0000_0000_0000 && b < 0x1_0000_0000_0000_0000 {
        return u128::from(small_divisor(a as u64, b as u64));
    }
    large_divisor(a, b)
}

/// The greatest common divisor of numbers of 64 bits, by Euclid's algorithm. It is fastest where the
/// first one is the smaller.
fn small_divisor(a: u64, b: u64) -> u64
    ensures { result ≡ gcd a b }
{
    let mut x = b;
    let mut y = a;
    while y > 1 {
        let rest = x % y;
        x = y;
        y = rest;
    }
    if y == 1 {
        return 1;
    }
    x
}

/// The greatest common divisor of any numbers, by Euclid's algorithm.
#[inline(never)]
fn large_divisor(a: u128, b: u128) -> u128
    ensures { result ≡ gcd a b }
{
    let mut x = a;
    let mut y = b;
    while y > 1 {
        let rest = remainder(x, y);
        x = y;
        y = rest;
    }
    if y == 1 {
        return 1;
    }
    x
}

/// The remainder of a division. Most numbers are small: a division of 64 bits is fast.
#[inline]
fn remainder(x: u128, y: u128) -> u128
    requires { 0 < y }
    ensures { result ≡ x % y }
{
    if x < y {
        return x;
    }
    if x < 0x1_0000_0000_0000_0000 {
        return u128::from(x as u64 % y as u64);
    }
    x % y
}
