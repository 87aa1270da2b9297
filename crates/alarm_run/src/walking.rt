//! The run of an alarm, walked backwards gap by gap.

ghost use Rattle.std.specs.Prelude.{◌≡◌, ◌+◌, ◌<◌, ◌≤◌, ◌++◌, ◌∷◌, [], ℕ, Err, IfOk, OnOk, Some, length};
ghost use Rattle.run_specs.specs.Runs.{Run as RunValue};
ghost use Rattle.run_specs.specs.SessionHistories.{IsHistory, verdict_at};
ghost use Rattle.run_specs.specs.declared.Verdict.{Verdict};
ghost use Rattle.alarm_run.specs.Alarms.{IsAlarmRun, AlarmRunPasses};
ghost use Rattle.alarm_run.specs.Walks.{IsAlarmed, AlarmedPasses, IsPlace, IsWalked, IsWalkedBack};

use crate::entries::{entry_at, first_marked, item_at, items_in};
use crate::lasts::last_values;
use fm_eliminate::RowFault;
use frac128::Frac;
use gap_runs::{GapBack, gap_back};
use lha_model::{GapRun, Run};
use live_session::History;
use std::alloc::{AllocError, Global};
use std::marker::Model;

/// Where the walk stands.
#[derive(Drop)]
pub struct Walk {
    /// The number of the state.
    number: usize,
    /// Its values, in lowest terms.
    last: Vec<Frac>,
    /// The parts of the run after it, the last one first.
    gaps: Vec<GapRun>,
}

impl Model for Walk {
    ghost use Rattle.alarm_run.specs.Walks.{WalkValue};

    ghost Value = { WalkValue };

    ghost view = { λ w. record { number = w.number; last = w.last.items; gaps = w.gaps.items } };
}

fn push(gaps: &mut Vec<GapRun>, gap: GapRun) -> Result<(), AllocError>
    ensures { OnOk result (gaps.new.items ≡ gaps.old.items ++ gap ∷ []) }
{
    match gaps.push(gap) {
        Ok(()) => Ok(()),
        Err(failed) => Err(AllocError::from(failed)),
    }
}

/// The walk begins at the first state that is marked, with the values that are picked for it.
fn begin(alloc: Global, history: &History<'_>, sample: usize) -> Result<Walk, RowFault>
    requires alarm { verdict_at history.now sample ≡ Some Verdict.Alarm }
    ensures place { IfOk result (IsPlace history.now (sample + 1)) }
    ensures walked { IfOk result (IsWalkedBack history.now (sample + 1) (sample + 1)) }
    ensures passes { result ≡ Err RowFault.Passes → (run : RunValue) → IsAlarmed history.now (sample + 1) run → AlarmedPasses history.now (sample + 1) }
    ensures kept { IsHistory history.now }
{
    let items = items_in(entry_at(history, sample));
    let number = first_marked(items);
    let last = last_values(alloc, item_at(items, number).state().system())?;
    Ok(Walk {
        number,
        last,
        gaps: Vec::new(alloc),
    })
}

/// Goes back over the gap of this number.
fn step_back(alloc: Global, history: &History<'_>, i: usize, walk: Walk) -> Result<Walk, RowFault>
    requires known { i < length history.now.gaps }
    requires place { IsPlace history.now (i + 1) walk }
    ensures place { IfOk result (IsPlace history.now i) }
    ensures walked { IfOk result (λ w. (n : ℕ) → i < n → n ≤ length history.now.gaps → IsWalkedBack history.now n (i + 1) walk → IsWalkedBack history.now n i w) }
    ensures passes { result ≡ Err RowFault.Passes → (n : ℕ) (run : RunValue) → i < n → n ≤ length history.now.gaps → IsAlarmed history.now n run → IsWalked history.now (i + 1) run walk → AlarmedPasses history.now n }
{
    let Walk {
        number,
        last,
        mut gaps,
    } = walk;
    let entry = entry_at(history, i);
    let item = item_at(items_in(entry), number);
    let GapBack { gap, start } = gap_back(
        alloc,
        entry.key(),
        item.parent(),
        item.path(),
        last.as_slice(),
    )?;
    push(&mut gaps, gap)?;
    Ok(Walk {
        number: item.parent(),
        last: start,
        gaps,
    })
}

/// Goes back over all gaps up to this number.
fn walk_back(
    alloc: Global,
    history: &History<'_>,
    count: usize,
    walk: Walk,
) -> Result<Walk, RowFault>
    requires known { count ≤ length history.now.gaps }
    requires place { IsPlace history.now count walk }
    requires walked { IsWalkedBack history.now count count walk }
    ensures place { IfOk result (IsPlace history.now 0) }
    ensures walked { IfOk result (IsWalkedBack history.now count 0) }
    ensures passes { result ≡ Err RowFault.Passes → (run : RunValue) → IsAlarmed history.now count run → AlarmedPasses history.now count }
{
    let mut walk = walk;
    for done in 0..count {
        walk = step_back(alloc, history, count - 1 - done, walk)?;
    }
    Ok(walk)
}

/// How many gaps there are up to this one.
fn count_to(history: &History<'_>, sample: usize) -> usize
    requires { sample < length history.now.gaps }
    ensures count { result ≡ sample + 1 }
    ensures kept { IsHistory history.now }
{
    // There are so many gaps that their number is a `usize`.
    history.gaps().len();
    sample + 1
}

/// The first run that explains the alarm at sample number `sample` of the history, counted from 0:
/// of the runs that visit an unsafe location it has the earliest history, and each of its numbers,
/// from the last values backwards, is the pick of the values that are left for it.
///
/// Each gap stands over its least denominator. `Passes` only where the log up to this sample passes
/// 128 bits, or forming its first run does. After an error nothing has changed.
pub fn alarm_run(alloc: Global, history: &History<'_>, sample: usize) -> Result<Run, RowFault>
    requires alarm { verdict_at history.now sample ≡ Some Verdict.Alarm }
    ensures ok { IfOk result (IsAlarmRun history.now sample) }
    ensures passes { result ≡ Err RowFault.Passes → AlarmRunPasses history.now sample }
{
    let end = begin(alloc, history, sample)?;
    let start = walk_back(alloc, history, count_to(history, sample), end)?;
    let mut gaps = start.gaps;
    gaps.reverse();
    Ok(Run::new(gaps))
}
