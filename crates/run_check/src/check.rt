//! Whether the gaps of a run are a run of a log's first samples.

ghost use Rattle.std.specs.Prelude.{◌≡◌, ◌↔◌, ◌+◌, ◌<◌, ◌≤◌, ◌^◌, ℕ, All, Ok, length, IsTrue, IfOk, IfErr, MatchOption};
ghost use Rattle.number_specs.specs.LogNumbers.{IsLogNumber};
ghost use Rattle.run_specs.specs.Automaton.{width};
ghost use Rattle.run_specs.specs.Logs.{IsLog};
ghost use Rattle.run_specs.specs.Runs.{VisitsUnsafe};
ghost use Rattle.replay_specs.specs.RunChecks.{GapAnswers, StopsAt, HasCount, IsRunOf, IsPlace, PassesAt, IsInRange, IsKeptGap, gap_at, run_of};

use crate::gaps::check_gap;
use crate::paths::visits_unsafe;
use lha_model::{Automaton, Log, Run};
use replay_specs::checks::Stop;

/// What the check of a run found.
#[derive(Clone, Copy, Debug, PartialEq, Eq)]
pub struct Verified {
    /// The gaps are a run of the log's first samples, one for each.
    pub is_run: bool,
    /// It is a run, and a leg of it is in an unsafe location.
    pub visits: bool,
    /// The number of the first gap that fails, from 1; 0 where it is a run, and where there is
    /// no gap or are more gaps than samples.
    pub place: u32,
}

/// A number of the check passes 128 bits in this gap, numbered from 1, before any check failed.
#[derive(Clone, Copy, Debug, PartialEq, Eq)]
pub struct RunPasses {
    pub place: u32,
}

/// Whether there is a gap, and a sample for each.
fn has_count(log: &Log, run: &Run) -> bool
    ensures { IsTrue result ↔ HasCount log.now run.now }
{
    let gaps = run.gaps().len();
    1 <= gaps && gaps <= log.samples().len()
}

/// The first gap that does not hold, from 0, and how it stops; `None` where all hold.
fn first_stop(a: &Automaton, jumps: u8, log: &Log, run: &Run) -> Option<(usize, Stop)>
    requires samples { IsLog (width a.now) log.now }
    requires times { All (λ s. IsLogNumber s.time) log.now }
    requires kept { All IsKeptGap run.now }
    requires few { length run.now ≤ length log.now }
    ensures { MatchOption result ((i : ℕ) → i < length run.now → GapAnswers a.now jumps log.now run.now i (Ok tt))
        (λ stop. StopsAt a.now jumps log.now run.now stop.0 stop.1) }
{
    for i in 0..run.gaps().len() {
        if let Err(how) = check_gap(a, jumps, log, run, i) {
            return Some((i, how));
        }
    }
    None
}

/// Whether a gap has a leg in an unsafe location.
fn some_visit(a: &Automaton, run: &Run) -> bool
    requires { (i : ℕ) → i < length run.now → IsInRange a.now (gap_at i run.now) }
    ensures { IsTrue result ↔ VisitsUnsafe a.now (run_of run.now) }
{
    for gap in run.gaps() {
        if visits_unsafe(a, gap) {
            return true;
        }
    }
    false
}

/// The number from 1 of what has this number from 0.
fn number_of(i: usize) -> u32
    requires { i + 1 < 2 ^ 32 }
    ensures { result ≡ i + 1 }
{
    (i + 1) as u32
}

/// Whether the gaps of the run are a run of the log's first samples, one for each, with at most
/// `jumps` jumps in each gap. Takes no memory.
///
/// The times of the log are numbers that a log may hold, and no number of the run is the least of
/// its type. In each gap are checked, in this order: sizes, numbers and the count of moves; the
/// start, or the join with the gap before; each leg and jump; the length; the sample.
///
/// # Errors
///
/// `RunPasses` where a number that this order forms passes 128 bits before any check failed.
pub fn check_run(a: &Automaton, jumps: u8, log: &Log, run: &Run) -> Result<Verified, RunPasses>
    requires samples { IsLog (width a.now) log.now }
    requires times { All (λ s. IsLogNumber s.time) log.now }
    requires few { length log.now < 2 ^ 32 }
    requires kept { All IsKeptGap run.now }
    ensures is_run { IfOk result (λ v. IsTrue v.is_run ↔ IsRunOf a.now jumps log.now run.now) }
    ensures visits { IfOk result (λ v. IsTrue v.visits ↔ (IsTrue v.is_run × VisitsUnsafe a.now (run_of run.now))) }
    ensures place { IfOk result (λ v. IsPlace a.now jumps log.now run.now v.place) }
    ensures passes { IfErr result (λ p. PassesAt a.now jumps log.now run.now p.place) }
{
    if !has_count(log, run) {
        return Ok(Verified {
            is_run: false,
            visits: false,
            place: 0,
        });
    }
    match first_stop(a, jumps, log, run) {
        None => Ok(Verified {
            is_run: true,
            visits: some_visit(a, run),
            place: 0,
        }),
        Some((i, Stop::Fails)) => Ok(Verified {
            is_run: false,
            visits: false,
            place: number_of(i),
        }),
        Some((i, Stop::Passes)) => Err(RunPasses {
            place: number_of(i),
        }),
    }
}
