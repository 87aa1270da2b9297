//! The pick between two ends that have no whole number between them.

ghost use Rattle.std.specs.Prelude.{◌≡◌, MatchBool, MatchOption, IsTrue, IsFalse, pos, ◌<ℤ◌};
ghost use Rattle.poly_specs.specs.Fractions.{AtMost, zero_fraction};
ghost use Rattle.poly_specs.specs.Picks.{HasNoInteger};
ghost use Rattle.poly_specs.specs.Sets.{HasMember};
ghost use Rattle.column_pick.specs.Ranges.{parted};
ghost use Rattle.column_pick.specs.RangePicks.{IsPickOf, IsInGap, IsFirstClosed, IsClosedEnd, opposite_cap};

use crate::parts::{middle_of, parted, see_kept};
use crate::ranges::Cap;
use frac128::Frac;

/// The nearer end, or the further one, whichever is the first that is not open.
fn first_closed(near: &Cap, far: &Cap) -> Option<Frac>
    ensures { MatchOption result (IsTrue near.now.is_open × IsTrue far.now.is_open) (λ e. IsFirstClosed near.now far.now e) }
{
    if !near.is_open {
        return Some(near.end);
    }
    if !far.is_open {
        return Some(far.end);
    }
    None
}

/// The first of the ends that is not open, from the low end or from the high end.
fn closed_end(from_low: bool, low: &Cap, high: &Cap) -> Option<Frac>
    ensures { IsClosedEnd from_low low.now high.now result }
{
    if from_low {
        first_closed(low, high)
    } else {
        first_closed(high, low)
    }
}

/// The pick between two ends with no whole number between them: the end that is nearest to 0 if it
/// is not open; else the other end if that is not; else the middle. `None` where forming it passes
/// 128 bits.
pub fn gap_pick(above: bool, low: &Cap, high: &Cap, parts: i128) -> Option<Frac>
    requires positive { pos 0 <ℤ parts }
    requires some { HasMember (IsInGap parts low.now high.now) }
    requires no_integer { HasNoInteger (IsInGap parts low.now high.now) }
    requires side { MatchBool above (AtMost zero_fraction (parted parts low.now.end)) (AtMost (parted parts high.now.end) zero_fraction) }
    ensures { IsPickOf (IsInGap parts low.now high.now) result }
{
    see_kept(&low.end);
    see_kept(&high.end);
    match closed_end(above, low, high) {
        Some(end) => {
            see_kept(&end);
            parted(&end, parts)
        }
        None => middle_of(&low.end, &high.end, parts),
    }
}
