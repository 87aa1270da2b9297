//! Fractions divided by a whole number, and the middle of two.

ghost use Rattle.std.specs.Prelude.{◌≡◌, ◌++◌, pos, ◌<ℤ◌, SomeIff};
ghost use Rattle.poly_specs.specs.Arithmetic.{IsKept, lowest, least_sum, sum_numbers};
ghost use Rattle.poly_specs.specs.Bits.{NonePasses};
ghost use Rattle.poly_specs.specs.Pickings.{half, lowest_numbers, middle_numbers};
ghost use Rattle.column_pick.specs.Ranges.{parted, least_middle};

use frac128::Frac;

/// The fraction is kept, which its readers say: there is nothing to run.
pub fn see_kept(x: &Frac)
    ensures { IsKept x.now }
{
    x.den();
}

/// The fraction divided by a positive whole number. `None` where its lowest terms pass 128 bits.
pub fn parted(x: &Frac, parts: i128) -> Option<Frac>
    requires { pos 0 <ℤ parts }
    ensures { SomeIff result (NonePasses (lowest_numbers (parted parts x.now))) (lowest (parted parts x.now)) }
{
    see_kept(x);
    x.mul(&Frac::make(1, parts))
}

/// Half of the sum. `None` where a number of the sum, or of its half in lowest terms, passes 128 bits.
fn half_of_sum(low: &Frac, high: &Frac) -> Option<Frac>
    ensures { SomeIff result (NonePasses (sum_numbers low.now high.now ++ lowest_numbers (half (least_sum low.now high.now)))) (lowest (half (least_sum low.now high.now))) }
{
    let sum = low.add(high)?;
    see_kept(low);
    see_kept(high);
    parted(&sum, 2)
}

/// The middle of two fractions that are divided by a positive whole number first. `None` where
/// forming one of the two, their sum or its half passes 128 bits.
pub fn middle_of(low: &Frac, high: &Frac, parts: i128) -> Option<Frac>
    requires { pos 0 <ℤ parts }
    ensures { SomeIff result (NonePasses (middle_numbers (parted parts low.now) (parted parts high.now))) (least_middle (parted parts low.now) (parted parts high.now)) }
{
    let low = parted(low, parts)?;
    let high = parted(high, parts)?;
    half_of_sum(&low, &high)
}
