//! The lines of a report.

ghost use Rattle.std.specs.Prelude.{◌≡◌, ◌+◌, ◌≤◌, ◌++◌, [], IfOk, IfSome, OnOk, OnErr, Option, None, Some, length, codes, decimal};
ghost use Rattle.std.specs.Option.{option_map};
ghost use Rattle.std.specs.Vec.{vec_len, vec_capacity};
ghost use Rattle.alarm_report.specs.ReportLines.{verdict_line, refused_line, spoken_of, most_bytes};

use crate::words::{verdict_text, word_of};
use itoa::Buffer;
use log_specs::Refusal;
use run_specs::Verdict;
use std::alloc::{AllocError, Global};

/// The most bytes that a line takes.
const MOST_BYTES: usize = 65;

/// Adds bytes for which there is room.
fn put(blocks: &mut Vec<u8>, bytes: &[u8])
    requires { vec_len blocks.old + length bytes.now ≤ vec_capacity blocks.old }
    ensures items { blocks.new.items ≡ blocks.old.items ++ bytes.now }
    ensures room { vec_capacity blocks.new ≡ vec_capacity blocks.old }
{
    for byte in bytes {
        blocks.push_reserved(*byte);
    }
}

/// Adds the digits of a number for which there is room.
fn put_number(blocks: &mut Vec<u8>, number: u64)
    requires { vec_len blocks.old + 20 ≤ vec_capacity blocks.old }
    ensures items { blocks.new.items ≡ blocks.old.items ++ decimal number }
    ensures room { vec_capacity blocks.new ≡ vec_capacity blocks.old }
    ensures few { vec_len blocks.new ≤ vec_len blocks.old + 20 }
{
    let mut buffer = Buffer::new();
    put(blocks, buffer.format(number).as_bytes());
}

/// Makes room for one line, without a run behind it.
///
/// # Errors
///
/// Want of memory. The bytes stay as they were, always.
pub fn reserve_line(blocks: &mut Vec<u8>) -> Result<(), AllocError>
    ensures items { blocks.new.items ≡ blocks.old.items }
    ensures room { OnOk result (vec_len blocks.new + most_bytes ≤ vec_capacity blocks.new) }
{
    blocks.reserve(MOST_BYTES)
}

/// Adds the line of an accepted sample, for which there is room: of `check` without a session, of `watch` with its session's name of at
/// most 32 bytes. Takes no memory.
pub fn put_line(blocks: &mut Vec<u8>, line: u64, session: Option<&[u8]>, verdict: Verdict)
    requires room { vec_len blocks.old + most_bytes ≤ vec_capacity blocks.old }
    requires short { IfSome session (λ name. length name.now ≤ 32) }
    ensures items { blocks.new.items ≡ blocks.old.items ++ verdict_line line (option_map (λ name. name.now) session.entry) verdict }
    ensures room { vec_capacity blocks.new ≡ vec_capacity blocks.old }
    ensures few { vec_len blocks.new ≤ vec_len blocks.old + most_bytes }
{
    put_number(blocks, line);
    put(blocks, b",");
    if let Some(name) = session {
        put(blocks, name);
        put(blocks, b",");
    }
    put(blocks, verdict_text(verdict));
    put(blocks, b"\n");
}

/// Adds the line of an accepted sample, as above, and the lines of a run behind it.
///
/// # Errors
///
/// Want of memory. The bytes are then as before.
pub fn put_answer(
    blocks: &mut Vec<u8>,
    line: u64,
    session: Option<&[u8]>,
    verdict: Verdict,
    run: &[u8],
) -> Result<(), AllocError>
    requires { IfSome session (λ name. length name.now ≤ 32) }
    ensures ok { OnOk result (blocks.new.items ≡ blocks.old.items ++ verdict_line line (option_map (λ name. name.now) session.entry) verdict ++ run.now) }
    ensures err { OnErr result (blocks.new.items ≡ blocks.old.items) }
{
    blocks.reserve(MOST_BYTES + run.len())?;
    put_line(blocks, line, session, verdict);
    put(blocks, run);
    Ok(())
}

/// Adds the line of a refused row, for which there is room. Takes no memory.
pub fn put_refusal(blocks: &mut Vec<u8>, line: u64, refusal: Refusal)
    requires { vec_len blocks.old + most_bytes ≤ vec_capacity blocks.old }
    ensures { blocks.new.items ≡ blocks.old.items ++ refused_line line refusal }
{
    put_number(blocks, line);
    put(blocks, b",refused,");
    put(blocks, word_of(refusal));
    put(blocks, b"\n");
}

/// The line of an accepted sample: of `check` without a session, of `watch` with its session's name of at most 32 bytes.
///
/// # Errors
///
/// Want of memory.
pub fn line_for(
    alloc: Global,
    line: u64,
    session: Option<&[u8]>,
    verdict: Verdict,
) -> Result<Vec<u8>, AllocError>
    requires short { IfSome session (λ name. length name.now ≤ 32) }
    ensures { IfOk result (λ v. v.items ≡ verdict_line line (option_map (λ name. name.now) session.entry) verdict) }
{
    let mut bytes = Vec::new(alloc);
    reserve_line(&mut bytes)?;
    put_line(&mut bytes, line, session, verdict);
    Ok(bytes)
}

/// The line of a refused row.
///
/// # Errors
///
/// Want of memory.
pub fn refusal_line(alloc: Global, line: u64, refusal: Refusal) -> Result<Vec<u8>, AllocError>
    ensures { IfOk result (λ v. v.items ≡ refused_line line refusal) }
{
    let mut bytes = Vec::new(alloc);
    reserve_line(&mut bytes)?;
    put_refusal(&mut bytes, line, refusal);
    Ok(bytes)
}
