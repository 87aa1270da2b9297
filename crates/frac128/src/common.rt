//! Fractions over their least common denominator.

ghost use Rattle.std.specs.Prelude.{◌≡◌, ◌≤◌, ◌++◌, ◌∷◌, [], All, List, map, length, pos, ◌<ℤ◌, unsigned_abs, SomeIff, IfSome, MatchOption};
ghost use Rattle.poly_specs.specs.Arithmetic.{IsKept};
ghost use Rattle.poly_specs.specs.Bits.{FitsBits, NonePasses};
ghost use Rattle.poly_specs.specs.Denominators.{lcm, common_den, common_nums, common_numbers, num_over};
ghost use Rattle.poly_specs.specs.Fractions.{Fraction};

use crate::Frac;
use crate::numbers::without_factor;
use checked_integers::kept_product;
use smallvec::SmallVec;
use std::alloc::Global;

/// The numerators of fractions over their least common denominator.
#[derive(Debug, Drop)]
pub struct Common {
    /// The numerator of each fraction.
    pub nums: SmallVec<i128, 15>,
    /// The denominator, which is positive.
    pub den: i128,
}

/// At most 15 fractions over their least common denominator. `None` exactly where that or one of the
/// numerators passes 128 bits. It takes no memory.
pub fn over_common(alloc: Global, numbers: &[Frac]) -> Option<Common>
    requires few { length numbers.now ≤ 15 }
    ensures value { MatchOption result (NonePasses (common_numbers numbers.now) → ⊥)
        (λ c. NonePasses (common_numbers numbers.now) × (c.nums.items ≡ common_nums numbers.now) × (c.den ≡ pos (common_den numbers.now))) }
    ensures positive { IfSome result (λ c. pos 0 <ℤ c.den) }
    ensures kept { All IsKept numbers.now }
{
    see_all_kept(numbers);
    let den = common_den(numbers)?;
    let nums = numerators(alloc, numbers, den)?;
    Some(Common { nums, den })
}

/// The least common multiple, where it does not pass 128 bits.
fn common_multiple(a: i128, b: i128) -> Option<i128>
    requires first { pos 0 <ℤ a }
    requires second { pos 0 <ℤ b }
    ensures { SomeIff result (FitsBits (pos (lcm (unsigned_abs a) (unsigned_abs b)))) (pos (lcm (unsigned_abs a) (unsigned_abs b))) }
{
    kept_product(a, Frac::make(a, b).den())
}

/// The least denominator that serves one fraction more.
fn with_den(den: i128, x: &Frac) -> Option<i128>
    requires { pos 0 <ℤ den }
    ensures value { (xs : List Fraction) → den ≡ pos (common_den xs) →
        SomeIff result (FitsBits (pos (common_den (xs ++ x.now ∷ [])))) (pos (common_den (xs ++ x.now ∷ []))) }
    ensures positive { IfSome result (λ d. pos 0 <ℤ d) }
{
    common_multiple(den, x.den())
}

/// The fractions are kept, which their readers say: there is nothing to run.
fn see_all_kept(numbers: &[Frac])
    ensures { All IsKept numbers.now }
{
    for x in numbers {
        x.den();
    }
}

/// The least denominator that serves all the fractions, where it does not pass 128 bits.
fn common_den(numbers: &[Frac]) -> Option<i128>
    requires { All IsKept numbers.now }
    ensures value { SomeIff result (FitsBits (pos (common_den numbers.now))) (pos (common_den numbers.now)) }
    ensures positive { IfSome result (λ d. pos 0 <ℤ d) }
{
    let mut den = 1;
    for x in numbers {
        den = with_den(den, x)?;
    }
    Some(den)
}

/// The numerator over a denominator that serves the fraction, where it does not pass 128 bits.
fn numerator(x: &Frac, den: i128) -> Option<i128>
    requires { pos 0 <ℤ den }
    ensures { SomeIff result (FitsBits (num_over (unsigned_abs den) x.now)) (num_over (unsigned_abs den) x.now) }
{
    kept_product(x.num(), without_factor(den, x.den()))
}

/// The numerators over a denominator that serves the fractions, where none passes 128 bits.
fn numerators(alloc: Global, numbers: &[Frac], den: i128) -> Option<SmallVec<i128, 15>>
    requires few { length numbers.now ≤ 15 }
    requires positive { pos 0 <ℤ den }
    ensures { MatchOption result (NonePasses (map (num_over (unsigned_abs den)) numbers.now) → ⊥)
        (λ v. (v.items ≡ map (num_over (unsigned_abs den)) numbers.now) × NonePasses (map (num_over (unsigned_abs den)) numbers.now)) }
{
    let mut nums = SmallVec::new(alloc);
    for x in numbers {
        nums.push_reserved(numerator(x, den)?);
    }
    Some(nums)
}
