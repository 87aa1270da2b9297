//! The top call.
ghost use Rattle.std.specs.Prelude.{◌≡◌, ◌≤◌, length, map, string_bytes, Some};
ghost use Rattle.std.specs.Arc.{arc_value};
ghost use Rattle.log_specs.specs.declared.LogForm.TheVariants as LogForm;
ghost use Rattle.log_specs.specs.LogReports.{rules_of};
ghost use Rattle.report_loop.specs.Outcome.{Says};
ghost use Rattle.report_loop.specs.Names.{AreNamedApart};
ghost use Rattle.report_loop.specs.Tasks.{log_task};
ghost use Rattle.command_words.specs.CommandLine.{request_of};
ghost use Rattle.command_words.specs.Said.{said_command, said};
ghost use Rattle.hamon_engine.specs.Runs.{model_of, model_text, Does, RunsWords, Completes, HasCause};
ghost use Rattle.hamon_engine.specs.Telling.{status_of, ended_by, IsTellable, IsTold};

use crate::models::{NoModels, models_from};
use crate::replaying::replay_named;
use crate::telling::{Ended, tell};
use command_words::{Command, Options, Request, WordsFault, read_words};
use lha_model::Automaton;
use log_specs::LogForm;
use mon_io::{Shelf, Sink, Source};
use report_loop::{Status, report_log};
use session_drive::{Remembering, Stepping};
use std::alloc::Global;
use std::sync::Arc;

/// Checks a log of one session against the first of some automata, and writes its report, with the runs that the options ask for.
///
/// No two of them have one name, nor two variables of one of them, as in a model's text. It returns whenever the source and the sink
/// do.
pub fn check_log<L: Source, O: Sink>(
    alloc: Global,
    models: &[Arc<Automaton>],
    options: &Options,
    log: &mut L,
    out: &mut O,
) -> Status
    requires names { AreNamedApart (map (λ a. arc_value a) models.now) }
    requires jumps { options.now.jumps ≤ 6 }
    ensures { Says (rules_of (log_task LogForm.Check (map (λ a. arc_value a) models.now) options.now.jumps options.now.runs))
        (record { log = L.told log.old; log_faults = L.faults log.old; out = O.taken out.old; out_faults = O.faults out.old })
        (record { log = L.told log.new; log_faults = L.faults log.new; out = O.taken out.new; out_faults = O.faults out.new })
        result }
{
    report_log(
        alloc,
        LogForm::Check,
        models,
        options.jumps,
        options.runs,
        Stepping::new(),
        log,
        out,
    )
}

/// Watches a log of many sessions, each of one of some automata, and writes its report, with the runs that the options ask for. The
/// sessions share one memo, of as many entries as the options say.
///
/// No two of them have one name, nor two variables of one of them, as in a model's text. It returns whenever the source and the sink
/// do.
pub fn watch_logs<L: Source, O: Sink>(
    alloc: Global,
    models: &[Arc<Automaton>],
    options: &Options,
    log: &mut L,
    out: &mut O,
) -> Status
    requires names { AreNamedApart (map (λ a. arc_value a) models.now) }
    requires jumps { options.now.jumps ≤ 6 }
    requires memo { 1 ≤ options.now.memo }
    ensures { Says (rules_of (log_task LogForm.Watch (map (λ a. arc_value a) models.now) options.now.jumps options.now.runs))
        (record { log = L.told log.old; log_faults = L.faults log.old; out = O.taken out.old; out_faults = O.faults out.old })
        (record { log = L.told log.new; log_faults = L.faults log.new; out = O.taken out.new; out_faults = O.faults out.new })
        result }
{
    match Remembering::bounded(alloc, options.memo as usize) {
        Ok(driver) => report_log(
            alloc,
            LogForm::Watch,
            models,
            options.jumps,
            options.runs,
            driver,
            log,
            out,
        ),
        Err(_) => Status::Memory,
    }
}

/// Does what a command asks for, by some automata.
///
/// There is one at least, and no two of them have one name, nor two variables of one of them, as in a model's text.
fn do_command<S: Shelf, L: Source, O: Sink>(
    alloc: Global,
    request: &Request<'_>,
    models: &[Arc<Automaton>],
    shelf: &mut S,
    log: &mut L,
    out: &mut O,
) -> Status
    requires some { 1 ≤ length models.now }
    requires names { AreNamedApart (map (λ a. arc_value a) models.now) }
    requires jumps { request.now.options.jumps ≤ 6 }
    requires memo { 1 ≤ request.now.options.memo }
    ensures { Does (said_command request.now.command) (map (λ a. arc_value a) models.now) request.now.options
        (record { streams = record { log = L.told log.old; log_faults = L.faults log.old; out = O.taken out.old; out_faults = O.faults out.old }; shelf = S.text shelf.old; shelf_faults = S.faults shelf.old })
        (record { streams = record { log = L.told log.new; log_faults = L.faults log.new; out = O.taken out.new; out_faults = O.faults out.new }; shelf = S.text shelf.new; shelf_faults = S.faults shelf.new })
        result }
{
    match request.command {
        Command::Check { .. } => check_log(alloc, models, &request.options, log, out),
        Command::Watch { .. } => watch_logs(alloc, models, &request.options, log, out),
        Command::Replay { log: name, .. } => {
            replay_named(alloc, models, &request.options, shelf, name, log, out)
        }
    }
}

/// The name of a command's model.
fn model_of<'a>(command: Command<'a>) -> &'a str
    ensures { result.now ≡ model_of (said_command command.entry) }
{
    match command {
        Command::Check { model } | Command::Watch { model } => model,
        Command::Replay { model, .. } => model,
    }
}

/// How a run ends that has no automata.
fn ended_without(why: NoModels) -> Ended
    ensures { ended_by why ≡ result }
{
    match why {
        NoModels::Refused(line) => Ended::Refused(line),
        NoModels::Failed => Ended::At(Status::ReadFault),
        NoModels::Memory => Ended::At(Status::Memory),
    }
}

/// Does what words ask for, and tells how that ended.
fn do_request<S: Shelf, L: Source, O: Sink>(
    alloc: Global,
    request: &Request<'_>,
    shelf: &mut S,
    log: &mut L,
    out: &mut O,
) -> Ended
    requires jumps { request.now.options.jumps ≤ 6 }
    requires memo { 1 ≤ request.now.options.memo }
    ensures report { RunsWords
        (record { streams = record { log = L.told log.old; log_faults = L.faults log.old; out = O.taken out.old; out_faults = O.faults out.old }; shelf = S.text shelf.old; shelf_faults = S.faults shelf.old })
        (record { streams = record { log = L.told log.new; log_faults = L.faults log.new; out = O.taken out.new; out_faults = O.faults out.new }; shelf = S.text shelf.new; shelf_faults = S.faults shelf.new })
        (status_of result) (Some (said request.now)) }
    ensures cause { HasCause (Some (said request.now))
        (record { streams = record { log = L.told log.old; log_faults = L.faults log.old; out = O.taken out.old; out_faults = O.faults out.old }; shelf = S.text shelf.old; shelf_faults = S.faults shelf.old })
        (record { streams = record { log = L.told log.new; log_faults = L.faults log.new; out = O.taken out.new; out_faults = O.faults out.new }; shelf = S.text shelf.new; shelf_faults = S.faults shelf.new })
        (status_of result) }
    ensures tellable { IsTellable (model_text (S.text shelf.old) (Some (said request.now))) result }
{
    match models_from(alloc, shelf, model_of(request.command)) {
        Ok(models) => Ended::At(do_command(alloc, request, &models, shelf, log, out)),
        Err(why) => ended_without(why),
    }
}

/// Reads the words, and does what they ask for.
fn do_words<S: Shelf, L: Source, O: Sink>(
    alloc: Global,
    words: &[String],
    shelf: &mut S,
    log: &mut L,
    out: &mut O,
) -> Ended
    ensures report { RunsWords
        (record { streams = record { log = L.told log.old; log_faults = L.faults log.old; out = O.taken out.old; out_faults = O.faults out.old }; shelf = S.text shelf.old; shelf_faults = S.faults shelf.old })
        (record { streams = record { log = L.told log.new; log_faults = L.faults log.new; out = O.taken out.new; out_faults = O.faults out.new }; shelf = S.text shelf.new; shelf_faults = S.faults shelf.new })
        (status_of result) (request_of (map string_bytes words.now)) }
    ensures cause { HasCause (request_of (map string_bytes words.now))
        (record { streams = record { log = L.told log.old; log_faults = L.faults log.old; out = O.taken out.old; out_faults = O.faults out.old }; shelf = S.text shelf.old; shelf_faults = S.faults shelf.old })
        (record { streams = record { log = L.told log.new; log_faults = L.faults log.new; out = O.taken out.new; out_faults = O.faults out.new }; shelf = S.text shelf.new; shelf_faults = S.faults shelf.new })
        (status_of result) }
    ensures tellable { IsTellable (model_text (S.text shelf.old) (request_of (map string_bytes words.now))) result }
{
    match read_words(alloc, words) {
        Ok(request) => do_request(alloc, &request, shelf, log, out),
        Err(WordsFault::Refused) => Ended::At(Status::Words),
        Err(WordsFault::Memory) => Ended::At(Status::Memory),
    }
}

/// Runs `hamon` on the words of its command line, without the program's name.
///
/// `check MODEL` and `watch MODEL` read the model's text from the shelf and the log from its source, and write the report of the log
/// to `out`: of one session, or of many. `replay MODEL LOG` reads the texts of the model and of the log from the shelf and the text of a
/// run where the others read a log, and writes one line that tells what is found of it.
///
/// One line on `diag` tells why a run ended early. Only want of memory is answered freely.
pub fn run<S: Shelf, L: Source, O: Sink, D: Sink>(
    alloc: Global,
    words: &[String],
    shelf: &mut S,
    log: &mut L,
    out: &mut O,
    diag: &mut D,
) -> Status
    // What was written, by the words, the model's text and the log, where these are told.
    ensures report { RunsWords
        (record { streams = record { log = L.told log.old; log_faults = L.faults log.old; out = O.taken out.old; out_faults = O.faults out.old }; shelf = S.text shelf.old; shelf_faults = S.faults shelf.old })
        (record { streams = record { log = L.told log.new; log_faults = L.faults log.new; out = O.taken out.new; out_faults = O.faults out.new }; shelf = S.text shelf.new; shelf_faults = S.faults shelf.new })
        result (request_of (map string_bytes words.now)) }

    // Nothing but want of memory keeps it from the end of the log, where no object failed.
    ensures complete { Completes
        (record { streams = record { log = L.told log.old; log_faults = L.faults log.old; out = O.taken out.old; out_faults = O.faults out.old }; shelf = S.text shelf.old; shelf_faults = S.faults shelf.old })
        (record { streams = record { log = L.told log.new; log_faults = L.faults log.new; out = O.taken out.new; out_faults = O.faults out.new }; shelf = S.text shelf.new; shelf_faults = S.faults shelf.new })
        result (request_of (map string_bytes words.now)) }

    // Each status has its cause: a fault is blamed only where a count rose, and a status that no command gives does not come.
    ensures cause { HasCause (request_of (map string_bytes words.now))
        (record { streams = record { log = L.told log.old; log_faults = L.faults log.old; out = O.taken out.old; out_faults = O.faults out.old }; shelf = S.text shelf.old; shelf_faults = S.faults shelf.old })
        (record { streams = record { log = L.told log.new; log_faults = L.faults log.new; out = O.taken out.new; out_faults = O.faults out.new }; shelf = S.text shelf.new; shelf_faults = S.faults shelf.new })
        result }

    // The line that tells the cause, also what is wrong with the model's text.
    ensures told { IsTold (model_text (S.text shelf.old) (request_of (map string_bytes words.now))) (D.taken diag.old) (D.taken diag.new) (D.faults diag.old) (D.faults diag.new) result }
{
    let ended = do_words(alloc, words, shelf, log, out);
    tell(diag, &ended)
}
