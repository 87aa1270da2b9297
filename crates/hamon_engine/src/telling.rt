//! The line that tells why a run ended.
ghost use Rattle.std.specs.Prelude.{◌≡◌, ◌⊎◌, List, ℕ, Option};
ghost use Rattle.report_loop.specs.declared.status.Status.TheVariants as status;
ghost use Rattle.hamon_engine.specs.Telling.{status_of, IsTellable, IsLineTold, IsTold};

use mon_io::{Sink, SinkFault};
use report_loop::{Status, write_all};

/// How a run ended.
#[derive(Drop)]
pub(crate) enum Ended {
    /// With this status, whose own line tells why.
    At(Status),
    /// Since the model's text is refused, with the line that tells why.
    Refused(Vec<u8>),
}

/// Writes the line that tells the cause of a status. Where a write fails the rest of the line is dropped; want of memory becomes
/// the status.
fn tell_line<D: Sink>(diag: &mut D, line: &[u8], ended: Status) -> Status
    ensures same { (result ≡ ended) ⊎ (result ≡ status.Memory) }
    ensures told { IsLineTold (D.taken diag.old) (D.taken diag.new) (D.faults diag.old) (D.faults diag.new) line.now result }
{
    match write_all(diag, line) {
        Ok(()) => ended,
        Err(SinkFault::Failed) => ended,
        Err(SinkFault::Memory) => Status::Memory,
    }
}

/// Tells how a run ended, and gives its status.
pub(crate) fn tell<D: Sink>(diag: &mut D, ended: &Ended) -> Status
    ensures same { (result ≡ status_of ended.now) ⊎ (result ≡ status.Memory) }
    ensures told { (text : Option (List ℕ)) → IsTellable text ended.now → IsTold text (D.taken diag.old) (D.taken diag.new) (D.faults diag.old) (D.faults diag.new) result }
{
    match ended {
        Ended::At(status) => tell_line(diag, status.line().as_bytes(), *status),
        Ended::Refused(line) => tell_line(diag, line, Status::Model),
    }
}
