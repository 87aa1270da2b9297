//! The bound of a sum, from what is left in the sum's column, and what it allows.

ghost use Rattle.std.specs.Prelude.{◌≡◌, ◌+◌, ◌<◌, ℕ, List, All, MatchBool, length};
ghost use Rattle.poly_specs.specs.Bounds.{IsPoint, Entails, with_sum};
ghost use Rattle.poly_specs.specs.Rows.{Row as RowValue, Point, Holds};
ghost use Rattle.poly_specs.specs.Systems.{IsLevel};
ghost use Rattle.poly_decide.specs.Bounded.{IsBound};

use crate::Bound;
use crate::caps::least_cap;
use lin_row::Row;
use point_hints::{exceeds, some_never_holds};

/// The bound, from what is left without any column and with the sum's column alone.
pub fn bound_of(none: &[Row], first: &[Row]) -> Bound
    requires { All (λ r. 0 < length r.coef) first.now }
    ensures { (n : ℕ) (rows : List RowValue) (r : RowValue) →
        IsLevel (n + 1) 0 (with_sum r rows) none.now → IsLevel (n + 1) 1 (with_sum r rows) first.now → IsBound n rows r result }
{
    if some_never_holds(none) {
        return Bound::Empty;
    }
    match least_cap(first) {
        None => Bound::Unbounded,
        Some(cap) => {
            if cap.is_open {
                Bound::Below(cap.end)
            } else {
                Bound::Max(cap.end)
            }
        }
    }
}

/// Whether all sums within the bound are at most 0, or below it where the row is strict.
pub fn is_allowed(bound: &Bound, strict: bool) -> bool
    ensures { (n : ℕ) (rows : List RowValue) (r : RowValue) → r.strict ≡ strict → IsBound n rows r bound.now →
        MatchBool result (Entails n rows r) ((p : Point) × IsPoint n rows p × (Holds r p → ⊥)) }
{
    match bound {
        Bound::Empty => true,
        Bound::Unbounded => false,
        Bound::Max(most) => !exceeds(most.num(), strict),
        Bound::Below(limit) => !exceeds(limit.num(), false),
    }
}
