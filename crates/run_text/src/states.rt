//! What was read of a run so far, and one line more.

ghost use Rattle.std.specs.Prelude.{◌≡◌, ◌<◌, ◌+◌, ◌++◌, ◌∷◌, [], OnOk, IfOk, IfErr, true, false, codes, None, nat_lt, List, ℕ};
ghost use Rattle.run_specs.specs.Runs as runs;
ghost use Rattle.replay_specs.specs.RunTexts.{IsWritableLeg};
ghost use Rattle.replay_specs.specs.RunTextFaults as texts;
ghost use Rattle.poly_specs.specs.Bits.{FitsBits};
ghost use Rattle.run_text.specs.States.{IsWhole, IsGapStart, IsPart, IsReading, Goes, later};
ghost use Rattle.run_text.specs.declared.lines.LineFault.TheVariants.{Memory};
ghost use Rattle.run_text.specs.declared.states.State.TheVariants as states;

use crate::lines::{GapStart, LineFault, read_count, read_gap, read_jump, read_stay, read_values};
use crate::pieces::behind;
use lha_model::{GapRun, Leg, Move};
use std::alloc::Global;

/// The gaps that are whole, and how many there are to be in all.
#[derive(Drop)]
pub(crate) struct Whole {
    pub(crate) count: u32,
    pub(crate) gaps: Vec<GapRun>,
}

/// A gap that has begun, behind those that are whole.
#[derive(Drop)]
pub(crate) struct Part {
    pub(crate) whole: Whole,
    pub(crate) gap: GapStart,
    pub(crate) start: Vec<i128>,
    pub(crate) moves: Vec<Move>,
}

/// What was read so far.
#[derive(Drop)]
pub(crate) enum State {
    Nothing,
    /// The number of gaps.
    Counted(Whole),
    /// The line that a gap begins with.
    Begun(Whole, GapStart),
    /// The values where a leg starts.
    Placed(Part),
    /// The length of a leg.
    Staying(Part, i128),
    /// A leg.
    Ended(Part, Leg),
    /// A leg and the jump after it.
    Jumped(Part, Leg, u8),
}

/// Reads the number of gaps.
fn first_line(alloc: Global, line: &[u8]) -> Result<State, LineFault>
    ensures { Goes states.Nothing line.now result }
{
    let count = read_count(line)?;
    let gaps = Vec::new(alloc);
    Ok(State::Counted(Whole { count, gaps }))
}

/// Reads the line that the first gap begins with.
fn first_gap_line(whole: Whole, line: &[u8]) -> Result<State, LineFault>
    requires { IsWhole whole }
    ensures { Goes (states.Counted whole) line.now result }
{
    let gap = read_gap(line)?;
    Ok(State::Begun(whole, gap))
}

/// Reads the start values of a gap.
fn start_line(alloc: Global, whole: Whole, gap: GapStart, line: &[u8]) -> Result<State, LineFault>
    requires whole { IsWhole whole }
    requires gap { IsGapStart gap }
    ensures { Goes (states.Begun whole gap) line.now result }
{
    let start = read_values(alloc, line)?;
    let moves = Vec::new(alloc);
    Ok(State::Placed(Part {
        whole,
        gap,
        start,
        moves,
    }))
}

/// Reads the length of a leg.
fn stay_line(part: Part, line: &[u8]) -> Result<State, LineFault>
    requires { IsPart part }
    ensures { Goes (states.Placed part) line.now result }
{
    let time = read_stay(line)?;
    Ok(State::Staying(part, time))
}

/// Reads the values at the end of a leg.
fn end_line(alloc: Global, part: Part, time: i128, line: &[u8]) -> Result<State, LineFault>
    requires part { IsPart part }
    requires time { FitsBits time }
    ensures { Goes (states.Staying part time) line.now result }
{
    let at_end = read_values(alloc, line)?;
    Ok(State::Ended(part, Leg::new(time, at_end)))
}

/// Reads a jump.
fn jump_line(part: Part, leg: Leg, line: &[u8]) -> Result<State, LineFault>
    requires part { IsPart part }
    requires leg { IsWritableLeg leg }
    requires word { (rest : List ℕ) × (line.now ≡ codes "jump " ++ rest) }
    ensures { Goes (states.Ended part leg) line.now result }
{
    let trans = read_jump(line)?;
    Ok(State::Jumped(part, leg, trans))
}

/// Puts a gap behind those that are whole.
pub(crate) fn close(part: Part, leg: Leg) -> Result<Whole, LineFault>
    ensures ok { IfOk result (λ whole. (whole.count ≡ part.whole.count)
        × (whole.gaps.items ≡ part.whole.gaps.items ++ record { den = part.gap.den; start_loc = part.gap.start_loc; start = part.start.items; moves = part.moves.items; last = leg } ∷ [])) }
    ensures fault { IfErr result (λ e. e ≡ Memory) }
{
    let Part {
        whole,
        gap,
        start,
        moves,
    } = part;
    let Whole { count, mut gaps } = whole;
    match gaps.push(GapRun::new(gap.den, start, gap.start_loc, moves, leg)) {
        Ok(()) => Ok(Whole { count, gaps }),
        Err(_) => Err(LineFault::Memory),
    }
}

/// Whether a gap comes behind the one that has begun.
pub(crate) fn has_later(part: &Part) -> bool
    requires { IsPart part.now }
    ensures { result ≡ nat_lt 0 (later part.now.whole) }
{
    part.whole.gaps.len() + 1 < part.whole.count as usize
}

/// Reads the line that a later gap begins with.
fn next_gap_line(part: Part, leg: Leg, line: &[u8]) -> Result<State, LineFault>
    requires part { IsPart part }
    requires leg { IsWritableLeg leg }
    requires word { texts.behind (codes "jump ") line.now ≡ None }
    ensures { Goes (states.Ended part leg) line.now result }
{
    if !has_later(&part) {
        return Err(LineFault::Form);
    }
    let gap = read_gap(line)?;
    let whole = close(part, leg)?;
    Ok(State::Begun(whole, gap))
}

/// Reads a jump, or the line that a later gap begins with.
fn next_line(part: Part, leg: Leg, line: &[u8]) -> Result<State, LineFault>
    requires part { IsPart part }
    requires leg { IsWritableLeg leg }
    ensures { Goes (states.Ended part leg) line.now result }
{
    match behind(line, b"jump ") {
        Some(_) => jump_line(part, leg, line),
        None => next_gap_line(part, leg, line),
    }
}

/// Puts a move behind those that were read.
fn moved(part: Part, step: Move) -> Result<Part, LineFault>
    ensures ok { IfOk result (λ next. (next.whole ≡ part.whole) × (next.gap ≡ part.gap) × (next.start ≡ part.start) × (next.moves.items ≡ part.moves.items ++ step ∷ [])) }
    ensures fault { IfErr result (λ e. e ≡ Memory) }
{
    let Part {
        whole,
        gap,
        start,
        mut moves,
    } = part;
    match moves.push(step) {
        Ok(()) => Ok(Part {
            whole,
            gap,
            start,
            moves,
        }),
        Err(_) => Err(LineFault::Memory),
    }
}

/// Reads the values after a jump.
fn after_line(
    alloc: Global,
    part: Part,
    leg: Leg,
    trans: u8,
    line: &[u8],
) -> Result<State, LineFault>
    requires part { IsPart part }
    requires leg { IsWritableLeg leg }
    requires trans { trans < 256 }
    ensures { Goes (states.Jumped part leg trans) line.now result }
{
    let after = read_values(alloc, line)?;
    let next = moved(part, Move::new(leg, trans, after))?;
    Ok(State::Placed(next))
}

/// Reads one line more.
pub(crate) fn read_line(alloc: Global, state: State, line: &[u8]) -> Result<State, LineFault>
    requires { IsReading state }
    ensures { Goes state line.now result }
{
    match state {
        State::Nothing => first_line(alloc, line),
        State::Counted(whole) => first_gap_line(whole, line),
        State::Begun(whole, gap) => start_line(alloc, whole, gap, line),
        State::Placed(part) => stay_line(part, line),
        State::Staying(part, time) => end_line(alloc, part, time, line),
        State::Ended(part, leg) => next_line(part, leg, line),
        State::Jumped(part, leg, trans) => after_line(alloc, part, leg, trans, line),
    }
}
