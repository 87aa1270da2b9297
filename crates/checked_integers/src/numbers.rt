//! Products, sums and differences, and the test that numbers do not pass 128 bits.

ghost use Rattle.std.specs.Prelude.{◌↔◌, ◌*ℤ◌, ◌+ℤ◌, ◌-ℤ◌, All, SomeIff, IsTrue};
ghost use Rattle.poly_specs.specs.Bits.{FitsBits};

/// Whether the number is not the least value of the type.
#[inline]
pub fn is_kept(number: i128) -> bool
    ensures { IsTrue result ↔ FitsBits number }
{
    number != i128::MIN
}

/// Whether no number is the least value of the type.
pub fn all_kept(numbers: &[i128]) -> bool
    ensures { IsTrue result ↔ All FitsBits numbers.now }
{
    numbers.iter().all(|number| is_kept(*number))
}

/// The product, where it does not pass 128 bits.
#[inline]
pub fn kept_product(a: i128, b: i128) -> Option<i128>
    ensures { SomeIff result (FitsBits (a *ℤ b)) (a *ℤ b) }
{
    let product = a.checked_mul(b)?;
    if product == i128::MIN {
        return None;
    }
    Some(product)
}

/// The sum, where it does not pass 128 bits.
#[inline]
pub fn kept_sum(a: i128, b: i128) -> Option<i128>
    ensures { SomeIff result (FitsBits (a +ℤ b)) (a +ℤ b) }
{
    let sum = a.checked_add(b)?;
    if sum == i128::MIN {
        return None;
    }
    Some(sum)
}

/// The difference, where it does not pass 128 bits.
#[inline]
pub fn kept_difference(a: i128, b: i128) -> Option<i128>
    ensures { SomeIff result (FitsBits (a -ℤ b)) (a -ℤ b) }
{
    let difference = a.checked_sub(b)?;
    if difference == i128::MIN {
        return None;
    }
    Some(difference)
}
