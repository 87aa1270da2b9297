//! Tells a finding.

ghost use Rattle.std.specs.Prelude.{◌≡◌};
ghost use Rattle.replay_log.specs.Replays as replays;
ghost use Rattle.replay_log.specs.Replays.{IsTold};

use mon_io::{Sink, SinkFault};
use report_loop::{Status, write_all};
use run_replay::{Finding, line_of};
use std::alloc::Global;

/// The status of a finding.
fn status_of(finding: Finding) -> Status
    ensures { result ≡ replays.status_of finding }
{
    match finding {
        Finding::Alarm => Status::Alarm,
        Finding::Safe => Status::Clean,
        Finding::Passes { .. } => Status::Overflow,
        Finding::No { .. } | Finding::Text { .. } | Finding::Range { .. } => Status::NotARun,
    }
}

/// Writes the line of a finding; its status, or that of a write that failed.
pub(crate) fn tell<O: Sink>(alloc: Global, finding: Finding, out: &mut O) -> Status
    ensures { IsTold (O.taken out.old) (O.taken out.new) (O.faults out.old) (O.faults out.new) finding result }
{
    let Ok(line) = line_of(alloc, finding) else {
        return Status::Memory;
    };
    match write_all(out, &line) {
        Ok(()) => status_of(finding),
        Err(SinkFault::Failed) => Status::WriteFault,
        Err(SinkFault::Memory) => Status::Memory,
    }
}
