//! Comparisons of fractions, which never pass 128 bits.

ghost use Rattle.std.specs.Prelude.{◌≡◌, ◌↔◌, pos, ◌<ℤ◌, ◌*ℤ◌, IsTrue};
ghost use Rattle.poly_specs.specs.Bits.{FitsBits};
ghost use Rattle.poly_specs.specs.Fractions.{AtMost};

use frac128::Frac;

/// Whether the first fraction is at most the second one.
pub fn is_at_most(x: &Frac, y: &Frac) -> bool
    ensures { IsTrue result ↔ AtMost x.now y.now }
{
    x.cmp(y).is_le()
}

/// Whether two fractions are the same.
pub fn is_same(num: i128, den: i128, other_num: i128, other_den: i128) -> bool
    requires kept { FitsBits num }
    requires other_kept { FitsBits other_num }
    requires positive { pos 0 <ℤ den }
    requires other_positive { pos 0 <ℤ other_den }
    ensures { IsTrue result ↔ num *ℤ other_den ≡ other_num *ℤ den }
{
    Frac::make(num, den) == Frac::make(other_num, other_den)
}
