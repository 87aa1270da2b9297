//! The definitions of fractions, rows, their elimination and picks.
#![tactic(auto)]

ghost use Rattle.std.specs.Prelude.{◌≡◌, ◌↔◌, ℕ, ◌+◌, ◌<◌, ◌≤◌, Bool, IsTrue, List, length, ℤ, pos, ◌<ℤ◌, unsigned_abs};
ghost use Rattle.std.specs.Int.{IsGcd};
ghost use Rattle.poly_specs.specs.Lists.{IsAmong};
ghost use Rattle.poly_specs.specs.Fractions.{Fraction, IsFraction, SameFraction, DifferAtMost, zero_fraction};
ghost use Rattle.poly_specs.specs.Rows.{Row, Point, Holds, SamePoint, AllHold, AllWide, SomeValueHolds, SomeValuesHold};
ghost use Rattle.poly_specs.specs.Elimination.{KeepsAmong, gcd, eliminated, eliminated_each, columns_down};
ghost use Rattle.poly_specs.specs.Arithmetic.{lowest};
ghost use Rattle.poly_specs.specs.Sets.{IsInterval};
ghost use Rattle.poly_specs.specs.Picks.{IsPick};

pub mod pickings;
pub mod picks;
pub mod projections;
pub mod rows;

/// Equal points satisfy the same rows.
pub fn equal_points()
    ensures { (r : Row) (p q : Point) → pos 0 <ℤ p.den → pos 0 <ℤ q.den → SamePoint p q → Holds r p → Holds r q }
{}

/// Plain elimination of a column is projection: it holds exactly where some value of the column makes the rows hold.
pub fn column_is_projected()
    ensures { (x w : ℕ) (rows : List Row) (p : Point) → x < w → AllWide w rows → length p.num ≡ w → pos 0 <ℤ p.den →
        AllHold (eliminated x rows) p ↔ SomeValueHolds x rows p }
{}

/// The same of all columns from one on.
pub fn columns_are_projected()
    ensures { (first n : ℕ) (rows : List Row) (p : Point) → AllWide (first + n) rows → length p.num ≡ first + n → pos 0 <ℤ p.den →
        AllHold (eliminated_each (columns_down first n) rows) p ↔ SomeValuesHold (first + n) first rows p }
{}

/// Rows that are among others stay so under plain elimination, and so do the numbers that it forms.
pub fn fewer_rows()
    ensures { (columns : List ℕ) (rows more : List Row) → IsAmong rows more → KeepsAmong columns rows more }
{}

/// A tolerance of 0 asks for equality.
pub fn no_tolerance()
    ensures { (v x : Fraction) → DifferAtMost zero_fraction v x ↔ SameFraction v x }
{}

/// An interval has at most one pick.
pub fn one_pick()
    ensures { (inside : Fraction → Bool) (x y : Fraction) → IsInterval (λ v. IsTrue (inside v)) →
        IsPick (λ v. IsTrue (inside v)) x → IsPick (λ v. IsTrue (inside v)) y → SameFraction x y }
{}

/// The pick of an interval is in it.
pub fn pick_is_inside()
    ensures { (inside : Fraction → Bool) (x : Fraction) → IsInterval (λ v. IsTrue (inside v)) →
        IsPick (λ v. IsTrue (inside v)) x → IsTrue (inside x) }
{}

/// Euclid's algorithm finds the greatest common divisor.
pub fn gcd_is_greatest()
    ensures { (a b : ℕ) → IsGcd a b (gcd a b) }
{}

/// A fraction in lowest terms is the same fraction.
pub fn lowest_is_same()
    ensures { (x : Fraction) → IsFraction x → IsFraction (lowest x) × SameFraction (lowest x) x }
{}

/// Two fractions are the same exactly where their lowest terms are equal.
pub fn lowest_is_unique()
    ensures { (x y : Fraction) → IsFraction x → IsFraction y → (SameFraction x y ↔ (lowest x ≡ lowest y)) }
{}

/// Neither number is larger in lowest terms.
pub fn lowest_is_no_larger()
    ensures { (x : Fraction) → IsFraction x →
        (unsigned_abs (lowest x).num ≤ unsigned_abs x.num) × (unsigned_abs (lowest x).den ≤ unsigned_abs x.den) }
{}

/// Lowest terms are in lowest terms.
pub fn lowest_stays()
    ensures { (x : Fraction) → IsFraction x → lowest (lowest x) ≡ lowest x }
{}
