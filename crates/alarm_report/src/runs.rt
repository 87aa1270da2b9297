//! The lines of a run in a report.

ghost use Rattle.std.specs.Prelude.{◌≡◌, IfOk, IfSome};
ghost use Rattle.std.specs.Option.{option_map};
ghost use Rattle.replay_specs.specs.RunTexts.{IsWritable};
ghost use Rattle.alarm_report.specs.RunLines.{lines_of_run};

use lha_model::Run;
use run_text::write_behind;
use std::alloc::{AllocError, Global};

/// The lines that stand behind an alarm: those of its first run, each behind `+ `, or `+ overflow` where there is none since a number
/// passed 128 bits.
///
/// # Errors
///
/// Want of memory.
pub fn run_lines(alloc: Global, run: Option<&Run>) -> Result<Vec<u8>, AllocError>
    requires { IfSome run (λ r. IsWritable r.now) }
    ensures { IfOk result (λ v. v.items ≡ lines_of_run (option_map (λ r. r.now) run.entry)) }
{
    let mut lines = Vec::new(alloc);
    match run {
        Some(run) => write_behind(&mut lines, b"+ ", run)?,
        None => lines.extend_from_slice(b"+ overflow\n")?,
    }
    Ok(lines)
}
