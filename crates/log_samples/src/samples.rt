//! The samples of a text.

ghost use Rattle.std.specs.Prelude.{◌≡◌, ◌≤◌, All, IfOk, length};
ghost use Rattle.run_specs.specs.Automaton.{width};
ghost use Rattle.run_specs.specs.Logs.{IsLog};
ghost use Rattle.log_specs.specs.LogSessions.{HasLogNumbers};
ghost use Rattle.replay_reports.specs.LogSamples.{accepted_samples};

use crate::lines::next_line;
use crate::so_far::SoFar;
use lha_model::{Automaton, Log};
use log_reader::without_mark;
use std::alloc::{AllocError, Global};

/// The samples that a text accepts as the log of one session, which the automaton judges: its header, its rows and their limits are those
/// of `check`, and a refused line gives no sample.
///
/// They are a log, with numbers that a log may hold, and at most 200,000.
///
/// # Errors
///
/// Want of memory.
pub fn samples_of(alloc: Global, automaton: &Automaton, text: &[u8]) -> Result<Log, AllocError>
    ensures samples { IfOk result (λ log. log ≡ accepted_samples automaton.now text.now) }
    ensures log { IfOk result (λ log. IsLog (width automaton.now) log) }
    ensures numbers { IfOk result (λ log. All HasLogNumbers log) }
    ensures few { IfOk result (λ log. length log ≤ 200000) }
{
    let mut so_far = SoFar::new(alloc, automaton);
    let mut rest = without_mark(text);
    while let Some(next) = next_line(rest) {
        so_far.take_line(alloc, next.line)?;
        rest = next.after;
    }
    Ok(so_far.into_log())
}
