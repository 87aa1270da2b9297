//! Exact fractions of two 128-bit integers.
//!
//! Each operation is exact or answers `None`: no number is rounded, and none wraps.
#![tactic(auto)]

mod common;
mod numbers;
mod order;
mod read;
mod write;

ghost use Rattle.std.specs.Prelude.{◌≡◌, ◌↔◌, pos, ◌<ℤ◌, SomeIff, IsSome, IfSome};
ghost use Rattle.poly_specs.specs.Fractions.{sum_of, difference, product_of, opposite, order_of};
ghost use Rattle.poly_specs.specs.Bits.{FitsBits, NonePasses};
ghost use Rattle.poly_specs.specs.Arithmetic.{IsKept, lowest, sum_numbers, product_numbers};
ghost use Rattle.frac128.specs.Parts.{Makes};

pub use crate::common::{Common, over_common};
use crate::numbers::{product_over, shared_factor, sum_over, without_factor};
use crate::order::compare_signed;
pub use number_specs::NumFault;
use std::cmp::Ordering;
use std::marker::Model;

/// A fraction in lowest terms over a positive denominator.
///
/// Neither number passes 128 bits: their absolute values are at most `2^127 - 1`, so that the
/// least value of the type never appears. Equal fractions have equal fields.
#[derive(Clone, Copy, Debug, PartialEq, Eq, Hash)]
pub struct Frac {
    num: i128,
    den: i128,
}

impl Model for Frac {
    ghost use Rattle.poly_specs.specs.Fractions.{Fraction};
    ghost use Rattle.poly_specs.specs.Arithmetic.{IsKept};

    ghost Value = { Fraction };

    ghost view = { λ f. record { num = f.num; den = f.den } };

    ghost invariant = { λ f. IsKept (record { num = f.num; den = f.den }) };

    ghost inverse = { λ x. record { num = x.num; den = x.den } };
}

impl Frac {
    /// The fraction `num / den`, brought to lowest terms.
    pub fn make(num: i128, den: i128) -> Frac
        requires positive { pos 0 <ℤ den }
        requires kept { FitsBits num }
        ensures { result ≡ lowest (record { num = num; den = den }) }
    {
        let shared = shared_factor(num, den);
        Frac {
            num: without_factor(num, shared),
            den: without_factor(den, shared),
        }
    }

    /// The numerator.
    pub fn num(&self) -> i128
        ensures value { result ≡ self.now.num }
        ensures kept { IsKept self.now }
    {
        self.num
    }

    /// The denominator, which is positive.
    pub fn den(&self) -> i128
        ensures value { result ≡ self.now.den }
        ensures kept { IsKept self.now }
    {
        self.den
    }

    /// The fraction with the other sign.
    pub fn neg(&self) -> Frac
        ensures { result ≡ opposite self.now }
    {
        Frac {
            num: -self.num,
            den: self.den,
        }
    }

    /// The sum, or `None` where a number on the way to it passes 128 bits.
    ///
    /// Those numbers are formed over the least common multiple of the denominators: the two
    /// products of a numerator, their sum, and the denominator.
    pub fn add(&self, other: &Frac) -> Option<Frac>
        ensures { SomeIff result (NonePasses (sum_numbers self.now other.now)) (lowest (sum_of self.now other.now)) }
    {
        let (num, den) = self.sum_parts(other)?;
        Some(Frac::make(num, den))
    }

    /// The difference, or `None` where a number on the way to it passes 128 bits, as in a sum.
    pub fn sub(&self, other: &Frac) -> Option<Frac>
        ensures { SomeIff result (NonePasses (sum_numbers self.now (opposite other.now))) (lowest (difference self.now other.now)) }
    {
        self.add(&other.neg())
    }

    /// The product, or `None` where its numerator or its denominator passes 128 bits.
    ///
    /// Each numerator is divided by what it shares with the other denominator first.
    pub fn mul(&self, other: &Frac) -> Option<Frac>
        ensures { SomeIff result (NonePasses (product_numbers self.now other.now)) (lowest (product_of self.now other.now)) }
    {
        let (num, den) = self.product_parts(other)?;
        Some(Frac::make(num, den))
    }

    /// The order of two fractions. It forms no product, and so has an answer for any two.
    pub fn cmp(&self, other: &Frac) -> Ordering
        ensures { result ≡ order_of self.now other.now }
    {
        compare_signed(self.num, self.den, other.num, other.den)
    }

    /// The numbers of the sum over the least common multiple of the denominators.
    fn sum_parts(&self, other: &Frac) -> Option<(i128, i128)>
        ensures kept { IsSome result ↔ NonePasses (sum_numbers self.now other.now) }
        ensures sum { IfSome result (λ p. Makes p.0 p.1 (sum_of self.now other.now)) }
    {
        let shared = shared_factor(self.den, other.den);
        let left_factor = without_factor(other.den, shared);
        let right_factor = without_factor(self.den, shared);
        sum_over(self.num, left_factor, other.num, right_factor, self.den)
    }

    /// The numbers of the product, each numerator divided by what it shares with the other denominator.
    fn product_parts(&self, other: &Frac) -> Option<(i128, i128)>
        ensures kept { IsSome result ↔ NonePasses (product_numbers self.now other.now) }
        ensures product { IfSome result (λ p. Makes p.0 p.1 (product_of self.now other.now)) }
    {
        let shared = shared_factor(self.num, other.den);
        let shared_back = shared_factor(other.num, self.den);
        let num = without_factor(self.num, shared);
        let other_num = without_factor(other.num, shared_back);
        let den = without_factor(self.den, shared_back);
        let other_den = without_factor(other.den, shared);
        product_over(num, other_num, den, other_den)
    }
}
