//! What is found of a text.

ghost use Rattle.std.specs.Prelude.{◌≡◌, ◌≤◌, ◌<◌, ◌^◌, All, length, IfOk};
ghost use Rattle.number_specs.specs.LogNumbers.{IsLogNumber};
ghost use Rattle.run_specs.specs.Automaton.{width};
ghost use Rattle.run_specs.specs.Logs.{IsLog};
ghost use Rattle.replay_specs.specs.RunTexts.{IsWritable};
ghost use Rattle.replay_reports.specs.LogSamples.{accepted_samples};
ghost use Rattle.replay_reports.specs.Findings.{IsFound, IsFoundOfRun, Finds};

use crate::plus_signs::without_plus_signs;
use lha_model::{Automaton, Log, Run};
use log_samples::samples_of;
use replay_reports::Finding;
use run_check::check_run;
use run_text::{TextFault, read_run};
use std::alloc::{AllocError, Global};

/// What is found of a run, for a log.
fn replay_gaps(automaton: &Automaton, jumps: u8, log: &Log, run: &Run) -> Finding
    requires samples { IsLog (width automaton.now) log.now }
    requires times { All (λ s. IsLogNumber s.time) log.now }
    requires few { length log.now < 2 ^ 32 }
    requires writable { IsWritable run.now }
    ensures { IsFoundOfRun automaton.now jumps log.now run.now result }
{
    match check_run(automaton, jumps, log, run) {
        Ok(found) if found.visits => Finding::Alarm,
        Ok(found) if found.is_run => Finding::Safe,
        Ok(found) => Finding::No { place: found.place },
        Err(passes) => Finding::Passes {
            place: passes.place,
        },
    }
}

/// What is found of a text without `+ `, for a log.
fn replay_text(
    alloc: Global,
    automaton: &Automaton,
    jumps: u8,
    log: &Log,
    text: &[u8],
) -> Result<Finding, AllocError>
    requires samples { IsLog (width automaton.now) log.now }
    requires times { All (λ s. IsLogNumber s.time) log.now }
    requires few { length log.now < 2 ^ 32 }
    requires short { length text.now ≤ 2 ^ 31 }
    ensures { IfOk result (IsFound automaton.now jumps log.now text.now) }
{
    match read_run(alloc, text) {
        Ok(run) => Ok(replay_gaps(automaton, jumps, log, &run)),
        Err(TextFault::Form { line }) => Ok(Finding::Text { line }),
        Err(TextFault::Range { line }) => Ok(Finding::Range { line }),
        Err(TextFault::Memory) => Err(AllocError),
    }
}

/// What is found of the text of a run, of at most 2^31 bytes, for the samples that the text of a log accepts, with at most `jumps` jumps in
/// each gap. The run is compared with the first samples, one for each gap. Its lines may stand behind `+ `, as they do in a report.
///
/// # Errors
///
/// Want of memory.
pub fn replay_run(
    alloc: Global,
    automaton: &Automaton,
    jumps: u8,
    log_text: &[u8],
    run_text: &[u8],
) -> Result<Finding, AllocError>
    requires { length run_text.now ≤ 2 ^ 31 }
    ensures { IfOk result (Finds automaton.now jumps log_text.now run_text.now) }
{
    let plain = without_plus_signs(alloc, run_text)?;
    let log = samples_of(alloc, automaton, log_text)?;
    replay_text(alloc, automaton, jumps, &log, &plain)
}
