//! The call that replays.

ghost use Rattle.std.specs.Prelude.{◌≡◌};
ghost use Rattle.report_loop.specs.Outcome.{Streams};
ghost use Rattle.replay_log.specs.Replays.{SaysReplay, status_without};

use crate::reading::{NoText, read_text};
use crate::telling::tell;
use lha_model::Automaton;
use mon_io::{Sink, Source};
use report_loop::Status;
use run_replay::replay_run;
use std::alloc::Global;

/// The most bytes of the text of a log, or of a run.
pub const TEXT_LIMIT: usize = 16_777_216;

/// The status of a replay that has no text of a run.
fn status_without(why: NoText) -> Status
    ensures { result ≡ status_without why }
{
    match why {
        NoText::Failed => Status::ReadFault,
        NoText::Long => Status::Limit,
        NoText::Memory => Status::Memory,
    }
}

/// Reads the text of a run from a source, and writes one line that tells what is found of it for the text of a log of one session, which the
/// automaton judges, with at most `jumps` jumps in each gap. Each text has at most 16,777,216 bytes.
///
/// It returns whenever the source and the sink do.
pub fn replay_log<L: Source, O: Sink>(
    alloc: Global,
    automaton: &Automaton,
    jumps: u8,
    log_text: &[u8],
    run_text: &mut L,
    out: &mut O,
) -> Status
    ensures { SaysReplay automaton.now jumps log_text.now
        (record { log = L.told run_text.old; log_faults = L.faults run_text.old; out = O.taken out.old; out_faults = O.faults out.old })
        (record { log = L.told run_text.new; log_faults = L.faults run_text.new; out = O.taken out.new; out_faults = O.faults out.new })
        result }
{
    if log_text.len() > TEXT_LIMIT {
        return Status::Limit;
    }
    let text = match read_text(alloc, run_text) {
        Ok(text) => text,
        Err(why) => return status_without(why),
    };
    match replay_run(alloc, automaton, jumps, log_text, &text) {
        Ok(finding) => tell(alloc, finding, out),
        Err(_) => Status::Memory,
    }
}
