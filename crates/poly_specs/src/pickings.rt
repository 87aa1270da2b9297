//! Whether a system has a point can be told, and a point of a system can be picked.

ghost use Rattle.std.specs.Prelude.{◌⊎◌, ℕ, ◌<◌, ◌≤◌, List, All, length, slice_index_or};
ghost use Rattle.poly_specs.specs.Fractions.{Fraction, IsFraction, SameFraction, zero_fraction};
ghost use Rattle.poly_specs.specs.Rows.{Point, Row, coordinate, AllWide, HasPoint};
ghost use Rattle.poly_specs.specs.Bounds.{IsPoint};
ghost use Rattle.poly_specs.specs.Pickings.{ArePickedNumbers};

/// A system has a point, or it has none.
pub fn a_point_or_none()
    ensures { (n : ℕ) (rows : List Row) → AllWide n rows → HasPoint n rows ⊎ (HasPoint n rows → ⊥) }
{}

/// Numbers for the first columns of a system, if some point of it has them there, go on to numbers for all columns:
/// each further one is the pick of the values that the system leaves for its column, and some point of the system has them all.
pub fn some_numbers_are_picked()
    ensures { (n : ℕ) (rows : List Row) (given : List Fraction) (q : Point) → AllWide n rows → All IsFraction given → length given ≤ n →
        IsPoint n rows q → ((j : ℕ) → j < length given → SameFraction (coordinate j q) (slice_index_or given j zero_fraction)) →
        (numbers : List Fraction) × (p : Point) × ArePickedNumbers n rows given numbers p }
{}
