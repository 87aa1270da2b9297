//! Each interval has one pick.

ghost use Rattle.std.specs.Prelude.{Bool, IsTrue, Option};
ghost use Rattle.poly_specs.specs.Fractions.{Fraction};
ghost use Rattle.poly_specs.specs.Sets.{IsInterval, HasMember, IsLowEnd, IsHighEnd, IsClosedAt};
ghost use Rattle.poly_specs.specs.Picks.{IsPick, IsClosedPick};

/// An interval with something in it, whose ends are fractions or missing, has a pick.
pub fn some_pick()
    ensures { (inside : Fraction → Bool) (low high : Option Fraction) → IsInterval (λ v. IsTrue (inside v)) →
        HasMember (λ v. IsTrue (inside v)) → IsLowEnd (λ v. IsTrue (inside v)) low → IsHighEnd (λ v. IsTrue (inside v)) high →
        (x : Fraction) × IsPick (λ v. IsTrue (inside v)) x }
{}

/// The pick of an interval that has its ends, or is unbounded, is 0 if 0 is in it; else the integer in it nearest to 0;
/// else what is nearest to 0 in it.
pub fn pick_of_closed()
    ensures { (inside : Fraction → Bool) (low high : Option Fraction) (x : Fraction) → IsInterval (λ v. IsTrue (inside v)) →
        IsLowEnd (λ v. IsTrue (inside v)) low → IsHighEnd (λ v. IsTrue (inside v)) high →
        IsClosedAt (λ v. IsTrue (inside v)) low → IsClosedAt (λ v. IsTrue (inside v)) high →
        IsPick (λ v. IsTrue (inside v)) x → IsClosedPick (λ v. IsTrue (inside v)) x }
{}
