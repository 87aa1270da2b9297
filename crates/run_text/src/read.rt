//! Texts of runs, read.

ghost use Rattle.std.specs.Prelude.{◌≡◌, ◌⊎◌, ◌+◌, ◌≤◌, ◌^◌, ◌∷◌, [], List, length, IfOk, IfErr, Ok, Err, true, false};
ghost use Rattle.run_specs.specs.Runs as runs;
ghost use Rattle.replay_specs.specs.RunTexts.{run_lines, run_text, IsWritable};
ghost use Rattle.replay_specs.specs.RunTextFaults.{is_end};
ghost use Rattle.run_text.specs.States.{IsReading, lines_of, place_of};
ghost use Rattle.run_text.specs.Reading.{Finishes, located, TellsFirst};
ghost use Rattle.run_text.specs.declared.read.TextFault.TheVariants as faults;

use crate::lines::LineFault;
use crate::pieces::first_piece;
use crate::states::{State, close, has_later, read_line};
use lha_model::Run;
use std::alloc::Global;

/// Why a text is no text of a run; lines are counted from 1.
#[derive(Clone, Copy, Debug, PartialEq, Eq)]
pub enum TextFault {
    /// The first line that may not come there, a missing line or a last line without its line feed too.
    Form { line: u32 },
    /// The first line that has an integer outside its limits.
    Range { line: u32 },
    /// There was no memory.
    Memory,
}

/// The fault of the line of this number.
fn located(fault: LineFault, line: u32) -> TextFault
    ensures { result ≡ located fault line }
{
    match fault {
        LineFault::Form => TextFault::Form { line },
        LineFault::Range => TextFault::Range { line },
        LineFault::Memory => TextFault::Memory,
    }
}

/// The run whose last line was read.
fn finish(state: State) -> Result<Run, LineFault>
    requires { IsReading state }
    ensures { Finishes state result }
{
    let State::Ended(part, leg) = state else {
        return Err(LineFault::Form);
    };
    if has_later(&part) {
        return Err(LineFault::Form);
    }
    let whole = close(part, leg)?;
    Ok(Run::new(whole.gaps))
}

/// The run whose text this is, or the text's first fault.
fn read_lines(alloc: Global, text: &[u8]) -> Result<Run, TextFault>
    requires { length text.now ≤ 2 ^ 31 }
    ensures ok { IfOk result (λ run. IsWritable run × (text.now ≡ run_text run)) }
    ensures fault { IfErr result (λ e. TellsFirst text.now e) }
{
    let mut state = State::Nothing;
    let mut rest = text;
    let mut line = 1;
    while let Some(halves) = first_piece(rest, b'\n') {
        match read_line(alloc, state, halves.before) {
            Ok(next) => state = next,
            Err(fault) => return Err(located(fault, line)),
        }
        rest = halves.after;
        line += 1;
    }
    if !rest.is_empty() {
        return Err(TextFault::Form { line });
    }
    match finish(state) {
        Ok(run) => Ok(run),
        Err(fault) => Err(located(fault, line)),
    }
}

/// The run whose text this is, of at most 2^31 bytes.
///
/// `Form` and `Range` tell the first line with which the text is that of no run, and come for no
/// text of a run; `Memory` comes only where there is none.
pub fn read_run(alloc: Global, text: &[u8]) -> Result<Run, TextFault>
    requires { length text.now ≤ 2 ^ 31 }
    ensures ok { IfOk result (λ run. IsWritable run × (text.now ≡ run_text run)) }
    ensures found { (run : List runs.GapRun) → IsWritable run → text.now ≡ run_text run → (result ≡ Ok run) ⊎ (result ≡ Err faults.Memory) }
    ensures fault { IfErr result (λ e. TellsFirst text.now e) }
{
    read_lines(alloc, text)
}
