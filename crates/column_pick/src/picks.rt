//! The pick of a range.

ghost use Rattle.std.specs.Prelude.{◌≡◌, ◌↔◌, IsTrue, Some, None, MatchOption, pos, ◌<ℤ◌};
ghost use Rattle.poly_specs.specs.Bits.{FitsBits};
ghost use Rattle.poly_specs.specs.Sets.{HasMember};
ghost use Rattle.column_pick.specs.Ranges.{IsBetween, IsShort, whole};
ghost use Rattle.column_pick.specs.RangePicks.{IsPickOf, HasZero, opposite_cap};

use crate::gaps::gap_pick;
use crate::parts::see_kept;
use crate::ranges::{Cap, Range, negated};
use crate::wholes::{least_whole, nearest_whole};
use frac128::Frac;

fn whole(number: i128) -> Frac
    requires { FitsBits number }
    ensures { result ≡ whole number }
{
    Frac::make(number, 1)
}

fn opposite_cap(cap: &Cap) -> Cap
    ensures { result ≡ opposite_cap cap.now }
{
    Cap {
        end: cap.end.neg(),
        is_open: cap.is_open,
    }
}

/// Whether 0 is not within the cap.
fn is_short(cap: &Cap) -> bool
    ensures { IsTrue result ↔ IsShort cap.now }
{
    if cap.is_open {
        cap.end.num() <= 0
    } else {
        cap.end.num() < 0
    }
}

/// The cap, if 0 is not within it.
fn short_cap(cap: &Option<Cap>) -> Option<Cap>
    ensures { MatchOption result (HasZero cap.now) (λ c. (cap.now ≡ Some c) × IsShort c) }
{
    match cap {
        None => None,
        Some(cap) => {
            if is_short(cap) {
                Some(Cap {
                    end: cap.end,
                    is_open: cap.is_open,
                })
            } else {
                None
            }
        }
    }
}

/// The pick of the numbers above 0 from a low end on, which is given as the cap of their opposites.
fn pick_from(down: &Cap, parts: i128) -> Option<Frac>
    requires positive { pos 0 <ℤ parts }
    requires short { IsShort down.now }
    ensures { IsPickOf (IsBetween parts (record { up = None; down = Some down.now })) result }
{
    see_kept(&down.end);
    let number = least_whole(down, parts)?;
    Some(whole(number))
}

/// The pick of the numbers below 0 up to a high end.
fn pick_up_to(up: &Cap, parts: i128) -> Option<Frac>
    requires positive { pos 0 <ℤ parts }
    requires short { IsShort up.now }
    ensures { IsPickOf (IsBetween parts (record { up = Some up.now; down = None })) result }
{
    see_kept(&up.end);
    let number = least_whole(up, parts)?;
    Some(whole(negated(number)))
}

/// The pick of the numbers above 0 between two ends.
fn pick_above(down: &Cap, up: &Cap, parts: i128) -> Option<Frac>
    requires positive { pos 0 <ℤ parts }
    requires short { IsShort down.now }
    requires some { HasMember (IsBetween parts (record { up = Some up.now; down = Some down.now })) }
    ensures { IsPickOf (IsBetween parts (record { up = Some up.now; down = Some down.now })) result }
{
    see_kept(&down.end);
    see_kept(&up.end);
    match nearest_whole(down, up, parts) {
        Some(number) => Some(whole(number)),
        None => gap_pick(true, &opposite_cap(down), up, parts),
    }
}

/// The pick of the numbers below 0 between two ends.
fn pick_below(up: &Cap, down: &Cap, parts: i128) -> Option<Frac>
    requires positive { pos 0 <ℤ parts }
    requires short { IsShort up.now }
    requires some { HasMember (IsBetween parts (record { up = Some up.now; down = Some down.now })) }
    ensures { IsPickOf (IsBetween parts (record { up = Some up.now; down = Some down.now })) result }
{
    see_kept(&down.end);
    see_kept(&up.end);
    match nearest_whole(up, down, parts) {
        Some(number) => Some(whole(negated(number))),
        None => gap_pick(false, &opposite_cap(down), up, parts),
    }
}

fn pick_above_zero(down: &Cap, up: &Option<Cap>, parts: i128) -> Option<Frac>
    requires positive { pos 0 <ℤ parts }
    requires short { IsShort down.now }
    requires some { HasMember (IsBetween parts (record { up = up.now; down = Some down.now })) }
    ensures { IsPickOf (IsBetween parts (record { up = up.now; down = Some down.now })) result }
{
    match up {
        None => pick_from(down, parts),
        Some(up) => pick_above(down, up, parts),
    }
}

fn pick_below_zero(up: &Cap, down: &Option<Cap>, parts: i128) -> Option<Frac>
    requires positive { pos 0 <ℤ parts }
    requires short { IsShort up.now }
    requires some { HasMember (IsBetween parts (record { up = Some up.now; down = down.now })) }
    ensures { IsPickOf (IsBetween parts (record { up = Some up.now; down = down.now })) result }
{
    match down {
        None => pick_up_to(up, parts),
        Some(down) => pick_below(up, down, parts),
    }
}

/// The pick of the numbers of a range, whose ends stand over `parts`: 0 if it is one of them; else
/// the whole number nearest to 0; else an end or the middle. `None` where forming it passes
/// 128 bits.
pub fn pick_between(range: &Range, parts: i128) -> Option<Frac>
    requires positive { pos 0 <ℤ parts }
    requires some { HasMember (IsBetween parts range.now) }
    ensures { IsPickOf (IsBetween parts range.now) result }
{
    match short_cap(&range.down) {
        Some(down) => pick_above_zero(&down, &range.up, parts),
        None => match short_cap(&range.up) {
            Some(up) => pick_below_zero(&up, &range.down, parts),
            None => Some(whole(0)),
        },
    }
}
