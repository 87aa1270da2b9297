//! Picks, bounds and eliminations of small sets and systems.

ghost use Rattle.std.specs.Prelude.{◌≡◌, [], ◌∷◌, pos, negsuc};
ghost use Rattle.poly_specs.specs.Sets.{IsGreatest, IsLimit};
ghost use Rattle.poly_specs.specs.Picks.{IsPick};
ghost use Rattle.poly_specs.specs.Bounds.{IsSum};
ghost use Rattle.poly_specs.specs.Elimination.{combination};
ghost use Rattle.example_specs.specs.Literals.{fraction, whole, row};
ghost use Rattle.example_specs.specs.Shutters.{strictly_inside};
ghost use Rattle.example_specs.specs.Sums.{IsInside, IsUpToThird, only_x, x_and_y, triangle, from_below, from_above};

/// The pick of what is strictly between 0 and 1 is 1/2; that of what is above 0 and at most 1/3 is 1/3.
pub fn two_picks()
    ensures { IsPick IsInside (fraction 1 2) × IsPick IsUpToThird (fraction 1 3) }
{}

/// What is strictly between 0 and 1 has no greatest number; it comes as near to 1 as one likes.
pub fn bound_that_is_not_met()
    ensures { IsLimit (IsSum 1 strictly_inside only_x) (whole 1) }
{}

/// The greatest sum of x and y in the triangle is 2.
pub fn bound_that_is_met()
    ensures { IsGreatest (IsSum 2 triangle x_and_y) (whole 2) }
{}

/// Without x, the two rows say that y is at most 3.
pub fn one_combination()
    ensures { combination 0 from_below from_above ≡ row (pos 0 ∷ pos 1 ∷ []) (negsuc 2) }
{}
