//! Whether one gap of a run holds.

ghost use Rattle.std.specs.Prelude.{◌≡◌, ◌↔◌, ◌<◌, ◌≤◌, ℕ, All, Ok, Some, length, pos, ◌<ℤ◌, IsTrue};
ghost use Rattle.poly_specs.specs.Bits.{FitsBits};
ghost use Rattle.poly_specs.specs.Rows.{over, SamePoint};
ghost use Rattle.number_specs.specs.LogNumbers.{IsLogNumber};
ghost use Rattle.run_specs.specs.Automaton.{width, location_at};
ghost use Rattle.run_specs.specs.Logs.{IsLog};
ghost use Rattle.replay_specs.specs.RunChecks as checks;
ghost use Rattle.replay_specs.specs.RunChecks.{Answers, start_steps, join_steps, gap_at, gap_before, GapAnswers, IsMoveInRange, IsInRange, IsKeptGap};

use crate::ends::{lengths_add_up, sample_holds};
use crate::numbers::is_same;
use crate::paths::{end_location, path_holds};
use crate::places::location;
use crate::rows::rows_hold;
use frac128::Frac;
use lha_model::{Automaton, GapRun, Log, Move, Run};
use replay_specs::checks::Stop;

/// Whether the move has as many values as variables, and a transition of the automaton.
fn is_move_in_range(a: &Automaton, m: &Move) -> bool
    ensures { IsTrue result ↔ IsMoveInRange a.now m.now }
{
    let width = a.vars().len();
    m.leg().at_end().len() == width
        && usize::from(m.trans()) < a.trans().len()
        && m.after().len() == width
}

/// Whether each move is in range.
fn are_moves_in_range(a: &Automaton, moves: &[Move]) -> bool
    ensures { IsTrue result ↔ All (IsMoveInRange a.now) moves.now }
{
    moves.iter().all(|m| is_move_in_range(a, m))
}

/// Whether the sizes and numbers of the gap are in range.
fn is_in_range(a: &Automaton, gap: &GapRun) -> bool
    ensures { IsTrue result ↔ IsInRange a.now gap.now }
{
    let width = a.vars().len();
    gap.den() > 0
        && usize::from(gap.start_loc()) < a.locs().len()
        && gap.start().len() == width
        && are_moves_in_range(a, gap.moves())
        && gap.last().at_end().len() == width
}

/// Asks that the gap is in range and has at most so many moves.
fn range_holds(a: &Automaton, jumps: u8, gap: &GapRun) -> bool
    ensures { IsTrue result ↔ IsInRange a.now gap.now × (length gap.now.moves ≤ jumps) }
{
    is_in_range(a, gap) && gap.moves().len() <= usize::from(jumps)
}

/// Whether numbers over one denominator are the same point as numbers over another.
fn is_same_point(num: &[i128], den: i128, other: &[i128], other_den: i128) -> bool
    requires sized { length other.now ≡ length num.now }
    requires kept { All FitsBits num.now }
    requires other_kept { All FitsBits other.now }
    requires positive { pos 0 <ℤ den }
    requires other_positive { pos 0 <ℤ other_den }
    ensures { IsTrue result ↔ SamePoint (over den num.now) (over other_den other.now) }
{
    for j in 0..num.len() {
        if !is_same(num[j], den, other[j], other_den) {
            return false;
        }
    }
    true
}

/// Asks that a run may start where the gap does: its location has `init` rows, and they hold.
fn start_holds(a: &Automaton, gap: &GapRun) -> Result<(), Stop>
    requires { IsInRange a.now gap.now }
    ensures { Answers (start_steps (location_at a.now gap.now.start_loc).init gap.now) result }
{
    match location(a, gap.start_loc()).init() {
        None => Err(Stop::Fails),
        Some(rows) => rows_hold(rows, gap.start(), gap.den()),
    }
}

/// Asks that the gap starts where the one before it ends.
fn join_holds(a: &Automaton, before: &GapRun, gap: &GapRun) -> Result<(), Stop>
    requires before_in_range { IsInRange a.now before.now }
    requires before_kept { IsKeptGap before.now }
    requires in_range { IsInRange a.now gap.now }
    requires kept { IsKeptGap gap.now }
    ensures { Answers (join_steps a.now (Some before.now) gap.now) result }
{
    if gap.start_loc() != end_location(a, before) {
        return Err(Stop::Fails);
    }
    if !is_same_point(gap.start(), gap.den(), before.last().at_end(), before.den()) {
        return Err(Stop::Fails);
    }
    Ok(())
}

/// Asks that gap i begins where it may: the first one at a start, a later one where the gap before it ends.
fn begin_holds(a: &Automaton, run: &Run, i: usize) -> Result<(), Stop>
    requires inside { i < length run.now }
    requires kept { All IsKeptGap run.now }
    requires before { (j : ℕ) → j < i → IsInRange a.now (gap_at j run.now) }
    requires in_range { IsInRange a.now (gap_at i run.now) }
    ensures { Answers (join_steps a.now (gap_before i run.now) (gap_at i run.now)) result }
{
    let gaps = run.gaps();
    if i == 0 {
        start_holds(a, &gaps[0])
    } else {
        join_holds(a, &gaps[i - 1], &gaps[i])
    }
}

/// The time before gap i: that of the sample before, and 0 before the first gap.
fn time_before(log: &Log, i: usize) -> Frac
    requires inside { i ≤ length log.now }
    requires times { All (λ s. IsLogNumber s.time) log.now }
    ensures value { result ≡ checks.time_before i log.now }
    ensures in_range { IsLogNumber result }
{
    if i == 0 {
        Frac::make(0, 1)
    } else {
        *log.samples()[i - 1].time()
    }
}

/// Checks gap i, where those before it are in range.
pub fn check_gap(a: &Automaton, jumps: u8, log: &Log, run: &Run, i: usize) -> Result<(), Stop>
    requires samples { IsLog (width a.now) log.now }
    requires times { All (λ s. IsLogNumber s.time) log.now }
    requires kept { All IsKeptGap run.now }
    requires inside { i < length run.now }
    requires sampled { i < length log.now }
    requires before { (j : ℕ) → j < i → IsInRange a.now (gap_at j run.now) }
    ensures { GapAnswers a.now jumps log.now run.now i result }
{
    let gap = &run.gaps()[i];
    if !range_holds(a, jumps, gap) {
        return Err(Stop::Fails);
    }
    begin_holds(a, run, i)?;
    path_holds(a, gap)?;
    let sample = &log.samples()[i];
    let before = time_before(log, i);
    lengths_add_up(gap, sample.time(), &before)?;
    sample_holds(a, sample, gap)
}
