//! Any number of fractions over their least common denominator.

ghost use Rattle.std.specs.Prelude.{◌≡◌, ◌++◌, ◌∷◌, [], ◌<ℤ◌, All, Err, IfOk, IfSome, List, OnOk, SomeIff, int_div, map, pos, unsigned_abs};
ghost use Rattle.poly_specs.specs.Arithmetic.{IsKept};
ghost use Rattle.poly_specs.specs.Bits.{FitsBits, NonePasses, SomePasses};
ghost use Rattle.poly_specs.specs.Denominators.{lcm, common_den, common_nums, common_numbers, num_over};
ghost use Rattle.poly_specs.specs.Fractions.{Fraction};
ghost use Rattle.gap_runs.specs.Befores.{common_point};

use checked_integers::kept_product;
use fm_eliminate::RowFault;
use frac128::Frac;
use lin_row::Point;
use std::alloc::{AllocError, Global};

/// The least common multiple, where it does not pass 128 bits.
fn common_multiple(a: i128, b: i128) -> Option<i128>
    requires first { pos 0 <ℤ a }
    requires first_fits { FitsBits a }
    requires second { pos 0 <ℤ b }
    ensures { SomeIff result (FitsBits (pos (lcm (unsigned_abs a) (unsigned_abs b)))) (pos (lcm (unsigned_abs a) (unsigned_abs b))) }
{
    kept_product(a, Frac::make(a, b).den())
}

/// The least denominator that serves one fraction more.
fn with_den(den: i128, x: &Frac) -> Option<i128>
    requires positive { pos 0 <ℤ den }
    requires fits { FitsBits den }
    ensures value { (xs : List Fraction) → den ≡ pos (common_den xs) →
        SomeIff result (FitsBits (pos (common_den (xs ++ x.now ∷ [])))) (pos (common_den (xs ++ x.now ∷ []))) }
    ensures positive { IfSome result (λ d. pos 0 <ℤ d) }
{
    common_multiple(den, x.den())
}

/// The fractions are kept, which their readers say: there is nothing to run.
pub fn see_all_kept(numbers: &[Frac])
    ensures { All IsKept numbers.now }
{
    for x in numbers {
        x.den();
    }
}

/// The least denominator that serves all the fractions, where it does not pass 128 bits.
fn den_of(numbers: &[Frac]) -> Option<i128>
    requires { All IsKept numbers.now }
    ensures value { SomeIff result (FitsBits (pos (common_den numbers.now))) (pos (common_den numbers.now)) }
    ensures positive { IfSome result (λ d. pos 0 <ℤ d) }
{
    let mut den = 1;
    for x in numbers {
        den = with_den(den, x)?;
    }
    Some(den)
}

/// What is left of a number without a factor.
fn without_factor(number: i128, factor: i128) -> i128
    requires { pos 0 <ℤ factor }
    ensures { result ≡ int_div number factor }
{
    number / factor
}

/// The numerator over a denominator that serves the fraction, where it does not pass 128 bits.
fn numerator(x: &Frac, den: i128) -> Option<i128>
    requires { pos 0 <ℤ den }
    ensures { SomeIff result (FitsBits (num_over (unsigned_abs den) x.now)) (num_over (unsigned_abs den) x.now) }
{
    kept_product(x.num(), without_factor(den, x.den()))
}

fn push(nums: &mut Vec<i128>, num: i128) -> Result<(), AllocError>
    ensures { OnOk result (nums.new.items ≡ nums.old.items ++ num ∷ []) }
{
    nums.push(num)?;
    Ok(())
}

/// Appends the numerator over a denominator that serves the fraction.
fn add_numerator(nums: &mut Vec<i128>, x: &Frac, den: i128) -> Result<(), RowFault>
    requires { pos 0 <ℤ den }
    ensures ok { OnOk result (nums.new.items ≡ nums.old.items ++ num_over (unsigned_abs den) x.now ∷ []) }
    ensures fits { OnOk result (FitsBits (num_over (unsigned_abs den) x.now)) }
    ensures passes { result ≡ Err RowFault.Passes → FitsBits (num_over (unsigned_abs den) x.now) → ⊥ }
{
    let Some(num) = numerator(x, den) else {
        return Err(RowFault::Passes);
    };
    push(nums, num)?;
    Ok(())
}

/// The numerators over a denominator that serves the fractions.
fn numerators(alloc: Global, numbers: &[Frac], den: i128) -> Result<Vec<i128>, RowFault>
    requires { pos 0 <ℤ den }
    ensures ok { IfOk result (λ v. v.items ≡ map (num_over (unsigned_abs den)) numbers.now) }
    ensures fit { IfOk result (λ v. NonePasses v.items) }
    ensures passes { result ≡ Err RowFault.Passes → NonePasses (map (num_over (unsigned_abs den)) numbers.now) → ⊥ }
{
    let mut nums = Vec::new(alloc);
    for x in numbers {
        add_numerator(&mut nums, x, den)?;
    }
    Ok(nums)
}

/// The point of these numbers over this denominator.
fn point_of(nums: Vec<i128>, den: i128) -> Point
    requires positive { pos 0 <ℤ den }
    requires fits { FitsBits den }
    requires fit { NonePasses nums.items }
    ensures { result ≡ record { num = nums.items; den = den } }
{
    Point::make(nums, den).unwrap()
}

/// The fractions over a denominator that serves them.
fn over_den(alloc: Global, numbers: &[Frac], den: i128) -> Result<Point, RowFault>
    requires positive { pos 0 <ℤ den }
    requires fits { FitsBits den }
    ensures ok { IfOk result (λ p. p ≡ record { num = map (num_over (unsigned_abs den)) numbers.now; den = den }) }
    ensures passes { result ≡ Err RowFault.Passes → NonePasses (map (num_over (unsigned_abs den)) numbers.now) → ⊥ }
{
    let nums = numerators(alloc, numbers, den)?;
    Ok(point_of(nums, den))
}

/// The fractions over their least common denominator. `Passes` where that or one of the numerators
/// passes 128 bits.
pub fn over_all(alloc: Global, numbers: &[Frac]) -> Result<Point, RowFault>
    ensures ok { IfOk result (λ p. p ≡ common_point numbers.now) }
    ensures passes { result ≡ Err RowFault.Passes → SomePasses (common_numbers numbers.now) }
    ensures kept { All IsKept numbers.now }
{
    see_all_kept(numbers);
    let Some(den) = den_of(numbers) else {
        return Err(RowFault::Passes);
    };
    over_den(alloc, numbers, den)
}
