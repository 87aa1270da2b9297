//! Runs, written.

ghost use Rattle.std.specs.Prelude.{◌≡◌, ℕ, ◌++◌, List, length, map, OnOk, IfOk, codes, decimal, flat_map};
ghost use Rattle.std.specs.Fmt.{signed_decimal};
ghost use Rattle.replay_specs.specs.RunTexts.{gap_line, at_line, stay_line, jump_line, leg_lines, move_lines, gap_lines, run_lines, ended_lines, run_text, IsWritable};
ghost use Rattle.run_text.specs.Behind.{lines_behind};

use itoa::Buffer;
use lha_model::{GapRun, Leg, Move, Run};
use std::alloc::{AllocError, Global};

/// Appends a number.
fn write_integer(out: &mut Vec<u8>, number: i128) -> Result<(), AllocError>
    ensures { OnOk result (out.new.items ≡ out.old.items ++ signed_decimal number) }
{
    let mut buffer = Buffer::new();
    out.extend_from_slice(buffer.format(number).as_bytes())?;
    Ok(())
}

/// Appends a count.
fn write_count(out: &mut Vec<u8>, count: usize) -> Result<(), AllocError>
    ensures { OnOk result (out.new.items ≡ out.old.items ++ decimal count) }
{
    let mut buffer = Buffer::new();
    out.extend_from_slice(buffer.format(count).as_bytes())?;
    Ok(())
}

/// Appends a space and a number.
fn write_value(out: &mut Vec<u8>, value: i128) -> Result<(), AllocError>
    ensures { OnOk result (out.new.items ≡ out.old.items ++ (codes " " ++ signed_decimal value)) }
{
    out.extend_from_slice(b" ")?;
    write_integer(out, value)?;
    Ok(())
}

/// Appends a line of values, behind the prefix.
fn write_values(out: &mut Vec<u8>, prefix: &[u8], values: &[i128]) -> Result<(), AllocError>
    ensures { OnOk result (out.new.items ≡ out.old.items ++ (prefix.now ++ at_line values.now ++ codes "\n")) }
{
    out.extend_from_slice(prefix)?;
    out.extend_from_slice(b"at")?;
    for value in values {
        write_value(out, *value)?;
    }
    out.extend_from_slice(b"\n")?;
    Ok(())
}

/// Appends the line of a leg's length, behind the prefix.
fn write_stay(out: &mut Vec<u8>, prefix: &[u8], time: i128) -> Result<(), AllocError>
    ensures { OnOk result (out.new.items ≡ out.old.items ++ (prefix.now ++ stay_line time ++ codes "\n")) }
{
    out.extend_from_slice(prefix)?;
    out.extend_from_slice(b"stay ")?;
    write_integer(out, time)?;
    out.extend_from_slice(b"\n")?;
    Ok(())
}

/// Appends the lines of a leg, each behind the prefix.
fn write_leg(out: &mut Vec<u8>, prefix: &[u8], leg: &Leg) -> Result<(), AllocError>
    ensures { OnOk result (out.new.items ≡ out.old.items ++ lines_behind prefix.now (leg_lines leg.now)) }
{
    write_stay(out, prefix, leg.stay())?;
    write_values(out, prefix, leg.at_end())?;
    Ok(())
}

/// Appends the line of a transition, behind the prefix.
fn write_jump(out: &mut Vec<u8>, prefix: &[u8], transition: u8) -> Result<(), AllocError>
    ensures { OnOk result (out.new.items ≡ out.old.items ++ (prefix.now ++ jump_line transition ++ codes "\n")) }
{
    out.extend_from_slice(prefix)?;
    out.extend_from_slice(b"jump ")?;
    write_count(out, usize::from(transition))?;
    out.extend_from_slice(b"\n")?;
    Ok(())
}

/// Appends the lines of a move, each behind the prefix.
fn write_move(out: &mut Vec<u8>, prefix: &[u8], step: &Move) -> Result<(), AllocError>
    ensures { OnOk result (out.new.items ≡ out.old.items ++ lines_behind prefix.now (move_lines step.now)) }
{
    write_leg(out, prefix, step.leg())?;
    write_jump(out, prefix, step.trans())?;
    write_values(out, prefix, step.after())?;
    Ok(())
}

/// Appends the lines of moves, each behind the prefix.
fn write_moves(out: &mut Vec<u8>, prefix: &[u8], moves: &[Move]) -> Result<(), AllocError>
    ensures { OnOk result (out.new.items ≡ out.old.items ++ lines_behind prefix.now (flat_map move_lines moves.now)) }
{
    for step in moves {
        write_move(out, prefix, step)?;
    }
    Ok(())
}

/// Appends the line that a gap begins with, behind the prefix.
fn write_gap_line(out: &mut Vec<u8>, prefix: &[u8], gap: &GapRun) -> Result<(), AllocError>
    ensures { OnOk result (out.new.items ≡ out.old.items ++ (prefix.now ++ gap_line gap.now.den gap.now.start_loc ++ codes "\n")) }
{
    out.extend_from_slice(prefix)?;
    out.extend_from_slice(b"gap ")?;
    write_integer(out, gap.den())?;
    out.extend_from_slice(b" ")?;
    write_count(out, usize::from(gap.start_loc()))?;
    out.extend_from_slice(b"\n")?;
    Ok(())
}

/// Appends the lines of a gap, each behind the prefix.
fn write_gap(out: &mut Vec<u8>, prefix: &[u8], gap: &GapRun) -> Result<(), AllocError>
    ensures { OnOk result (out.new.items ≡ out.old.items ++ lines_behind prefix.now (gap_lines gap.now)) }
{
    write_gap_line(out, prefix, gap)?;
    write_values(out, prefix, gap.start())?;
    write_moves(out, prefix, gap.moves())?;
    write_leg(out, prefix, gap.last())?;
    Ok(())
}

/// Appends the lines of gaps, each behind the prefix.
fn write_gaps(out: &mut Vec<u8>, prefix: &[u8], gaps: &[GapRun]) -> Result<(), AllocError>
    ensures { OnOk result (out.new.items ≡ out.old.items ++ lines_behind prefix.now (flat_map gap_lines gaps.now)) }
{
    for gap in gaps {
        write_gap(out, prefix, gap)?;
    }
    Ok(())
}

/// Appends the lines of a run, each behind this prefix. It has 1 to 2^32 - 1 gaps, denominators of at least 1, one to six values in
/// each list, and no number of an absolute value above 2^127 - 1.
///
/// # Errors
///
/// Want of memory.
pub fn write_behind(out: &mut Vec<u8>, prefix: &[u8], run: &Run) -> Result<(), AllocError>
    requires { IsWritable run.now }
    ensures { OnOk result (out.new.items ≡ out.old.items ++ ended_lines (map (λ line. prefix.now ++ line) (run_lines run.now))) }
{
    out.extend_from_slice(prefix)?;
    out.extend_from_slice(b"run ")?;
    write_count(out, run.gaps().len())?;
    out.extend_from_slice(b"\n")?;
    write_gaps(out, prefix, run.gaps())?;
    Ok(())
}

/// The text of a run, which has 1 to 2^32 - 1 gaps, denominators of at least 1, one to six values in
/// each list, and no number of an absolute value above 2^127 - 1.
///
/// An error comes only where there is no memory.
pub fn write_run(alloc: Global, run: &Run) -> Result<Vec<u8>, AllocError>
    requires { IsWritable run.now }
    ensures { IfOk result (λ text. text.items ≡ run_text run.now) }
{
    let mut out = Vec::new(alloc);
    write_behind(&mut out, b"", run)?;
    Ok(out)
}
