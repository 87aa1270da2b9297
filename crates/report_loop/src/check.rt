//! Reads the lines of a log and writes their blocks.
ghost use Rattle.std.specs.Prelude.{◌≡◌, ℕ, ◌≤◌, List, [], length, map, Option, Some, IfOk, IfNone, OnOk, OnErr};
ghost use Rattle.std.specs.Arc.{arc_value};
ghost use Rattle.log_specs.specs.Blocks.{Task};
ghost use Rattle.log_specs.specs.LogReports.{rules_of};
ghost use Rattle.log_reader.specs.Reading.{HoldsNoFeed};
ghost use Rattle.log_session.specs.Progress.{Progress, IsTaskOf};
ghost use Rattle.report_loop.specs.Outcome.{Streams, Says};
ghost use Rattle.report_loop.specs.Names.{AreNamedApart};
ghost use Rattle.report_loop.specs.Tasks.{log_task};
ghost use Rattle.report_loop.specs.Turns.{AddsBlock, is_line, IsReporting, TurnSays, FlushSays, LinesSay, GivesOne, status_for, status_at_end};

use crate::status::Status;
use crate::writing::{write_pending, write_rest, write_status};
use lha_model::Automaton;
use log_reader::{Line, LineReader, ReadFault};
use log_session::JudgedLog;
use log_specs::{LogForm, RunsMode};
use mon_io::{Sink, SinkFault, Source};
use session_drive::Drive;
use std::alloc::{AllocError, Global};
use std::sync::Arc;

/// The most bytes of a log that are read: 2^34.
const LOG_LIMIT: u64 = 1 << 34;

/// Adds the block of what the reader gave, and tells whether it was a line. After an error what is pending is as before.
fn add_block<D: Drive>(
    alloc: Global,
    judged: &mut JudgedLog<'_, D>,
    line: Line,
    pending: &mut Vec<u8>,
) -> Result<bool, AllocError>
    requires { HoldsNoFeed line }
    ensures ok { OnOk result ((task : Task) → IsTaskOf task judged.old → AddsBlock task line judged.old judged.new pending.old.items pending.new.items) }
    ensures more { IfOk result (λ more. more ≡ is_line line) }
    ensures err { OnErr result (pending.new.items ≡ pending.old.items) }
{
    match line {
        Line::Text { number, bytes } => {
            judged.add_line(alloc, number, &bytes, pending)?;
            Ok(true)
        }
        Line::Long { number } => {
            judged.add_long(number, pending)?;
            Ok(true)
        }
        Line::End => Ok(false),
    }
}

/// The status at the end of a log.
fn status_of<D: Drive>(judged: &JudgedLog<'_, D>) -> Status
    ensures { result ≡ status_at_end judged.now.tally }
{
    let tally = judged.tally();
    if tally.alarm >= 1 {
        Status::Alarm
    } else if tally.overflow >= 1 {
        Status::Overflow
    } else {
        Status::Clean
    }
}

/// The status of a reading that failed.
fn fault_status(fault: ReadFault) -> Status
    ensures { result ≡ status_for fault }
{
    match fault {
        ReadFault::Failed => Status::ReadFault,
        ReadFault::Limit => Status::Limit,
        ReadFault::Memory => Status::Memory,
    }
}

/// Reads a line and adds its block to the pending ones; the status if the reading ended.
fn read_line<L: Source, D: Drive>(
    alloc: Global,
    reader: &mut LineReader,
    judged: &mut JudgedLog<'_, D>,
    pending: &mut Vec<u8>,
    log: &mut L,
) -> Option<Status>
    ensures says { (task : Task) (before : Streams) (out : Option (List ℕ)) (writes : ℕ)
        → IsReporting task before (record { log = L.told log.old; log_faults = L.faults log.old; out = out; out_faults = writes })
        reader.old judged.old pending.old.items
        → TurnSays task before (record { log = L.told log.new; log_faults = L.faults log.new; out = out; out_faults = writes })
        reader.new judged.new pending.new.items result }
    ensures given { IfNone result (GivesOne reader.old reader.new) }
{
    let line = match reader.next_line(alloc, log) {
        Ok(line) => line,
        Err(fault) => return Some(fault_status(fault)),
    };
    match add_block(alloc, judged, line, pending) {
        Ok(true) => None,
        Ok(false) => Some(status_of(judged)),
        Err(_) => Some(Status::Memory),
    }
}

/// Writes the pending blocks if the reader holds no whole line, so that a reader of the output need not wait for the next read.
fn flush_before_read<O: Sink>(
    reader: &LineReader,
    pending: &mut Vec<u8>,
    out: &mut O,
) -> Result<(), SinkFault>
    ensures within { reader.now.reading.given ≤ reader.now.reading.most }
    ensures says { (task : Task) (p : Progress) (before : Streams) (log : Option (List ℕ)) (reads : ℕ)
        → IsReporting task before (record { log = log; log_faults = reads; out = O.taken out.old; out_faults = O.faults out.old }) reader.now p pending.old.items
        → FlushSays task before (record { log = log; log_faults = reads; out = O.taken out.new; out_faults = O.faults out.new }) reader.now p pending.new.items result }
{
    if reader.has_line() {
        Ok(())
    } else {
        write_pending(out, pending)
    }
}

/// Reads lines until the reading ends, and writes their blocks whenever the reader holds no whole line. Gives the status of the
/// reading, with blocks that may be pending yet.
fn read_lines<L: Source, O: Sink, D: Drive>(
    alloc: Global,
    reader: &mut LineReader,
    judged: &mut JudgedLog<'_, D>,
    pending: &mut Vec<u8>,
    log: &mut L,
    out: &mut O,
) -> Result<Status, SinkFault>
    ensures { (task : Task) (before : Streams)
        → IsReporting task before
        (record { log = L.told log.old; log_faults = L.faults log.old; out = O.taken out.old; out_faults = O.faults out.old })
        reader.old judged.old pending.old.items
        → LinesSay task before
        (record { log = L.told log.new; log_faults = L.faults log.new; out = O.taken out.new; out_faults = O.faults out.new })
        pending.new.items result }
{
    'lines: loop {
        if let Err(fault) = flush_before_read(reader, pending, out) {
            return Err(fault);
        }
        if let Some(status) = read_line(alloc, reader, judged, pending, log) {
            return Ok(status);
        }
    }
}

/// Reports a log of this form: reads its lines, judges them by the automata with at most so many jumps in each gap, and writes the
/// block of each, with the runs of these alarms behind their replies. The log of `check` is judged by the first automaton. The samples
/// are driven by the driver, whichever it is. It returns whenever the source and the sink do.
///
/// No two automata have one name, and no two variables of one automaton, as in a model's text.
pub fn report_log<L: Source, O: Sink, D: Drive + Drop>(
    alloc: Global,
    form: LogForm,
    models: &[Arc<Automaton>],
    jumps: u8,
    runs: RunsMode,
    driver: D,
    log: &mut L,
    out: &mut O,
) -> Status
    requires names { AreNamedApart (map (λ a. arc_value a) models.now) }
    requires jumps { jumps ≤ 6 }
    ensures { Says (rules_of (log_task form (map (λ a. arc_value a) models.now) jumps runs))
        (record { log = L.told log.old; log_faults = L.faults log.old; out = O.taken out.old; out_faults = O.faults out.old })
        (record { log = L.told log.new; log_faults = L.faults log.new; out = O.taken out.new; out_faults = O.faults out.new })
        result }
{
    let Ok(mut reader) = LineReader::new(alloc, LOG_LIMIT) else {
        return Status::Memory;
    };
    let mut judged = JudgedLog::new(alloc, form, models, jumps, runs, driver);
    let mut pending = Vec::new(alloc);
    match read_lines(alloc, &mut reader, &mut judged, &mut pending, log, out) {
        Ok(status) => write_rest(out, &mut pending, status),
        Err(fault) => write_status(fault),
    }
}
