//! Whether the moves and the last leg of a gap are those of an automaton.

ghost use Rattle.std.specs.Prelude.{◌≡◌, ◌<◌, ◌≤◌, ◌++◌, length, pos, ◌<ℤ◌};
ghost use Rattle.run_specs.specs.Automaton.{width, location_at, transition_at};
ghost use Rattle.run_specs.specs.Runs.{end_loc, path_of, goes_unsafe};
ghost use Rattle.replay_specs.specs.RunChecks.{Answers, leg_steps, jump_steps, path_steps, IsInRange, IsMoveInRange};

use crate::legs::{jump_holds, leg_holds};
use crate::places::{location, transition};
use lha_model::{Automaton, GapRun, Move};
use replay_specs::checks::Stop;

/// Asks that the move leads on from these values in location l.
fn move_holds(a: &Automaton, l: u8, den: i128, from: &[i128], m: &Move) -> Result<(), Stop>
    requires inside { l < length a.now.locations }
    requires sized { length from.now ≡ width a.now }
    requires in_range { IsMoveInRange a.now m.now }
    requires positive { pos 0 <ℤ den }
    ensures { Answers (leg_steps (location_at a.now l) den from.now m.now.leg ++ jump_steps a.now l den m.now) result }
{
    leg_holds(location(a, l), den, from, m.leg())?;
    jump_holds(a, l, den, m)
}

/// Asks that each leg and jump of the gap is one of the automaton, in order.
pub fn path_holds(a: &Automaton, gap: &GapRun) -> Result<(), Stop>
    requires { IsInRange a.now gap.now }
    ensures { Answers (path_steps a.now gap.now.den gap.now.start_loc gap.now.start gap.now.moves gap.now.last) result }
{
    let mut loc = gap.start_loc();
    let mut from = gap.start();
    for m in gap.moves() {
        move_holds(a, loc, gap.den(), from, m)?;
        loc = transition(a, m.trans()).to();
        from = m.after();
    }
    leg_holds(location(a, loc), gap.den(), from, gap.last())
}

/// The number of the location where the gap ends.
pub fn end_location(a: &Automaton, gap: &GapRun) -> u8
    requires { IsInRange a.now gap.now }
    ensures { result ≡ end_loc a.now gap.now.start_loc (path_of gap.now) }
{
    let mut loc = gap.start_loc();
    for m in gap.moves() {
        loc = transition(a, m.trans()).to();
    }
    loc
}

/// Whether a leg of the gap is in an unsafe location.
pub fn visits_unsafe(a: &Automaton, gap: &GapRun) -> bool
    requires { IsInRange a.now gap.now }
    ensures { result ≡ goes_unsafe a.now gap.now.start_loc (path_of gap.now) }
{
    let mut loc = gap.start_loc();
    for m in gap.moves() {
        if location(a, loc).unsafe_loc() {
            return true;
        }
        loc = transition(a, m.trans()).to();
    }
    location(a, loc).unsafe_loc()
}
