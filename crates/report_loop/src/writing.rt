//! Writes bytes to a sink that may take them in pieces.
ghost use Rattle.std.specs.Prelude.{◌≡◌, ℕ, ◌≤◌, take, Option, List, OnOk, OnErr, IsErrOf};
ghost use Rattle.std.specs.Io.KnownBytes.{Appends};
ghost use Rattle.mon_io.specs.Faults.{Rose};
ghost use Rattle.log_specs.specs.Blocks.{Task};
ghost use Rattle.log_specs.specs.LogReports.{rules_of};
ghost use Rattle.report_loop.specs.Outcome.{Streams, Says, SaysBut, WriteSays};
ghost use Rattle.report_loop.specs.Turns.{write_status_for};

use crate::status::Status;
use mon_io::{Sink, SinkFault};

/// Writes all of the bytes, or the first ones where a write fails.
///
/// # Errors
///
/// The fault of the first write that fails.
pub fn write_all<O: Sink>(out: &mut O, bytes: &[u8]) -> Result<(), SinkFault>
    ensures ok { OnOk result (Appends (O.taken out.old) (O.taken out.new) bytes.now) }
    ensures err { OnErr result ((n : ℕ) × Appends (O.taken out.old) (O.taken out.new) (take n bytes.now)) }
    ensures later { O.faults out.old ≤ O.faults out.new }
    ensures cause { IsErrOf result SinkFault.Failed → Rose (O.faults out.old) (O.faults out.new) }
{
    let mut at = 0;
    while at < bytes.len() {
        let n = out.write(&bytes[at..])?;
        at += n;
    }
    Ok(())
}

/// Writes the pending blocks.
pub(crate) fn write_pending<O: Sink>(out: &mut O, pending: &mut Vec<u8>) -> Result<(), SinkFault>
    ensures { WriteSays (O.taken out.old) (O.taken out.new) (O.faults out.old) (O.faults out.new) pending.old.items pending.new.items result }
{
    write_all(out, pending)?;
    pending.clear();
    Ok(())
}

/// The status of a write that failed.
pub(crate) fn write_status(fault: SinkFault) -> Status
    ensures { result ≡ write_status_for fault }
{
    match fault {
        SinkFault::Failed => Status::WriteFault,
        SinkFault::Memory => Status::Memory,
    }
}

/// Writes the blocks that are pending at the end of a reading; the status of the reading, or that of the write.
pub(crate) fn write_rest<O: Sink>(out: &mut O, pending: &mut Vec<u8>, status: Status) -> Status
    ensures { (task : Task) (before : Streams) (log : Option (List ℕ)) (reads : ℕ)
        → before.out_faults ≤ O.faults out.old
        → SaysBut (rules_of task) before (record { log = log; log_faults = reads; out = O.taken out.old; out_faults = O.faults out.old }) pending.old.items status
        → Says (rules_of task) before (record { log = log; log_faults = reads; out = O.taken out.new; out_faults = O.faults out.new }) result }
{
    match write_pending(out, pending) {
        Ok(()) => status,
        Err(fault) => write_status(fault),
    }
}
