//! The lines of the run behind a reply.

ghost use Rattle.std.specs.Prelude.{◌≡◌, ◌≤◌, Some, length, true, IfOk};
ghost use Rattle.log_specs.specs.Blocks.{last_of};
ghost use Rattle.run_specs.specs.declared.Verdict.TheVariants as verdict;
ghost use Rattle.log_session.specs.Behind.{StandsBehind};

use alarm_report::run_lines;
use fm_eliminate::RowFault;
use log_table::LogTable;
use std::alloc::{AllocError, Global};

/// The lines that stand behind the last reply to the session of this name, of at most 32 bytes, where a run is wanted and it is an alarm.
fn lines_of_alarm(alloc: Global, table: &LogTable, name: &[u8]) -> Result<Vec<u8>, AllocError>
    requires short { length name.now ≤ 32 }
    requires alarm { last_of table.now.replied name.now ≡ Some verdict.Alarm }
    ensures { IfOk result (λ v. StandsBehind table.now name.now true v.items) }
{
    match table.first_run(alloc, name) {
        Ok(run) => run_lines(alloc, Some(&run)),
        Err(RowFault::Passes) => run_lines(alloc, None),
        Err(RowFault::Memory) => Err(AllocError),
    }
}

/// The lines that stand behind the last reply to the session of this name, of at most 32 bytes: none where no run is wanted.
pub(crate) fn run_behind(
    alloc: Global,
    table: &LogTable,
    name: &[u8],
    is_wanted: bool,
) -> Result<Vec<u8>, AllocError>
    requires short { length name.now ≤ 32 }
    requires alarm { is_wanted ≡ true → last_of table.now.replied name.now ≡ Some verdict.Alarm }
    ensures { IfOk result (λ v. StandsBehind table.now name.now is_wanted v.items) }
{
    if is_wanted {
        lines_of_alarm(alloc, table, name)
    } else {
        Ok(Vec::new(alloc))
    }
}
