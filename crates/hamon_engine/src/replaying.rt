//! Replays the text of a run.
ghost use Rattle.std.specs.Prelude.{◌≡◌, ◌≤◌, map, length, IfSome};
ghost use Rattle.std.specs.Arc.{arc_value};
ghost use Rattle.log_specs.specs.LogSessions.{first_automaton};
ghost use Rattle.replay_log.specs.Replays.{SaysReplay};
ghost use Rattle.hamon_engine.specs.ReplayRuns.{Replays};

use command_words::Options;
use lha_model::Automaton;
use mon_io::{Shelf, ShelfFault, Sink, Source};
use replay_log::{TEXT_LIMIT, replay_log};
use report_loop::Status;
use std::alloc::Global;
use std::sync::Arc;

/// Reads the text of a run, and writes one line that tells what is found of it, for the samples that the text of a log of one session
/// accepts, by the first of some automata. Each text has at most 16,777,216 bytes.
///
/// It returns whenever the source and the sink do.
pub fn replay<L: Source, O: Sink>(
    alloc: Global,
    models: &[Arc<Automaton>],
    options: &Options,
    log_text: &[u8],
    run_text: &mut L,
    out: &mut O,
) -> Status
    requires some { 1 ≤ length models.now }
    ensures { IfSome (first_automaton (map (λ a. arc_value a) models.now)) (λ a. SaysReplay a options.now.jumps log_text.now
        (record { log = L.told run_text.old; log_faults = L.faults run_text.old; out = O.taken out.old; out_faults = O.faults out.old })
        (record { log = L.told run_text.new; log_faults = L.faults run_text.new; out = O.taken out.new; out_faults = O.faults out.new })
        result) }
{
    replay_log(alloc, &models[0], options.jumps, log_text, run_text, out)
}

/// Replays the text of a run on the log of this name.
pub(crate) fn replay_named<S: Shelf, L: Source, O: Sink>(
    alloc: Global,
    models: &[Arc<Automaton>],
    options: &Options,
    shelf: &mut S,
    name: &str,
    run_text: &mut L,
    out: &mut O,
) -> Status
    requires some { 1 ≤ length models.now }
    ensures { IfSome (first_automaton (map (λ a. arc_value a) models.now)) (λ a. Replays a options.now.jumps (S.text shelf.old name.now)
        (record { streams = record { log = L.told run_text.old; log_faults = L.faults run_text.old; out = O.taken out.old; out_faults = O.faults out.old }; shelf = S.text shelf.old; shelf_faults = S.faults shelf.old })
        (record { streams = record { log = L.told run_text.new; log_faults = L.faults run_text.new; out = O.taken out.new; out_faults = O.faults out.new }; shelf = S.text shelf.new; shelf_faults = S.faults shelf.new })
        result) }
{
    match shelf.text(alloc, name, TEXT_LIMIT) {
        Ok(text) => replay(alloc, models, options, &text, run_text, out),
        Err(ShelfFault::Long) => Status::Limit,
        Err(ShelfFault::Failed) => Status::ReadFault,
        Err(ShelfFault::Memory) => Status::Memory,
    }
}
