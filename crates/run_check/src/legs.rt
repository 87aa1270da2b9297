//! Whether legs and jumps are those of an automaton.

ghost use Rattle.std.specs.Prelude.{◌≡◌, ◌↔◌, ◌+◌, ◌≤◌, ◌<◌, [], ◌∷◌, ◌++◌, length, pos, ◌<ℤ◌, int_lt, true, IsTrue, MatchOption};
ghost use Rattle.poly_specs.specs.Bits.{SomePasses, NonePasses};
ghost use Rattle.poly_specs.specs.Lists.{minus};
ghost use Rattle.poly_specs.specs.Rows.{AllWide};
ghost use Rattle.run_specs.specs.Automaton.{width, location_at};
ghost use Rattle.run_specs.specs.WellFormed.{IsLocation};
ghost use Rattle.replay_specs.specs.RunChecks.{Answers, asks, slope_steps, leg_steps, jump_steps, IsMoveInRange};

use crate::places::{location, transition};
use crate::rows::rows_hold;
use checked_integers::kept_difference;
use lha_model::{Automaton, Leg, Loc, Move};
use lin_row::Row;
use replay_specs::checks::Stop;
use smallvec::SmallVec;
use std::alloc::Global;

/// Whether these are the same numbers.
fn are_equal(a: &[i128], b: &[i128]) -> bool
    ensures { IsTrue result ↔ (a.now ≡ b.now) }
{
    a == b
}

/// Asks that the ends of a leg of length 0 are equal.
fn ends_meet(from: &[i128], to: &[i128]) -> Result<(), Stop>
    ensures { Answers (asks (to.now ≡ from.now) ∷ []) result }
{
    if !are_equal(to, from) {
        return Err(Stop::Fails);
    }
    Ok(())
}

/// The difference of each variable, and then the length; `None` where a difference passes.
fn slopes_at(from: &[i128], leg: &Leg) -> Option<SmallVec<i128, 14>>
    requires few { length from.now ≤ 6 }
    requires sized { length leg.now.at_end ≡ length from.now }
    ensures { MatchOption result (SomePasses (minus leg.now.at_end from.now))
        (λ at. NonePasses (minus leg.now.at_end from.now) × (at.items ≡ minus leg.now.at_end from.now ++ leg.now.length_of ∷ [])) }
{
    let end = leg.at_end();
    let mut at = SmallVec::new(leg.allocator());
    for i in 0..end.len() {
        at.push_reserved(kept_difference(end[i], from[i])?);
    }
    at.push_reserved(leg.stay());
    Some(at)
}

/// Forms all differences, and asks that the slopes hold.
fn leg_moves(slopes: &[Row], den: i128, from: &[i128], leg: &Leg) -> Result<(), Stop>
    requires few { length from.now ≤ 6 }
    requires sized { length leg.now.at_end ≡ length from.now }
    requires wide { AllWide (length from.now + 1) slopes.now }
    requires positive { pos 0 <ℤ den }
    ensures { Answers (slope_steps true slopes.now den from.now leg.now) result }
{
    let Some(at) = slopes_at(from, leg) else {
        return Err(Stop::Passes);
    };
    rows_hold(slopes, at.as_slice(), den)
}

/// Asks that a leg that lasts keeps its slopes, and that another one stays where it is.
fn slopes_hold(slopes: &[Row], den: i128, from: &[i128], leg: &Leg) -> Result<(), Stop>
    requires few { length from.now ≤ 6 }
    requires sized { length leg.now.at_end ≡ length from.now }
    requires wide { AllWide (length from.now + 1) slopes.now }
    requires positive { pos 0 <ℤ den }
    ensures { Answers (slope_steps (int_lt (pos 0) leg.now.length_of) slopes.now den from.now leg.now) result }
{
    if leg.stay() > 0 {
        leg_moves(slopes, den, from, leg)
    } else {
        ends_meet(from, leg.at_end())
    }
}

/// Asks that the leg is one of the location, from these values: its length is at least 0, the
/// invariant holds at its start and at its end, and its slopes are kept.
pub fn leg_holds(loc: &Loc, den: i128, from: &[i128], leg: &Leg) -> Result<(), Stop>
    requires few { length from.now ≤ 6 }
    requires sized { length leg.now.at_end ≡ length from.now }
    requires kept { IsLocation (length from.now) loc.now }
    requires positive { pos 0 <ℤ den }
    ensures { Answers (leg_steps loc.now den from.now leg.now) result }
{
    if leg.stay() < 0 {
        return Err(Stop::Fails);
    }
    rows_hold(loc.inv(), from, den)?;
    rows_hold(loc.inv(), leg.at_end(), den)?;
    slopes_hold(loc.flow(), den, from, leg)
}

/// The first numbers, and then the second.
fn joined(alloc: Global, first: &[i128], second: &[i128]) -> SmallVec<i128, 14>
    requires { length first.now + length second.now ≤ 14 }
    ensures { result.items ≡ first.now ++ second.now }
{
    let mut joined = SmallVec::from_slice(alloc, first).unwrap();
    for number in second {
        joined.push_reserved(*number);
    }
    joined
}

/// Asks that the move's jump leaves location l: the transition does, and its rows and the
/// target's invariant hold.
pub fn jump_holds(a: &Automaton, l: u8, den: i128, m: &Move) -> Result<(), Stop>
    requires in_range { IsMoveInRange a.now m.now }
    requires positive { pos 0 <ℤ den }
    ensures { Answers (jump_steps a.now l den m.now) result }
{
    let trans = transition(a, m.trans());
    if trans.from() != l {
        return Err(Stop::Fails);
    }
    let both = joined(m.leg().allocator(), m.leg().at_end(), m.after());
    rows_hold(trans.rel(), both.as_slice(), den)?;
    rows_hold(location(a, trans.to()).inv(), m.after(), den)
}
