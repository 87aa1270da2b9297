//! The line that tells a finding.

ghost use Rattle.std.specs.Prelude.{◌≡◌, ◌++◌, IfOk, codes, decimal};
ghost use Rattle.replay_reports.specs.Findings as findings;

use itoa::Buffer;
use replay_reports::Finding;
use std::alloc::{AllocError, Global};

/// A line of a word and a number.
fn numbered(alloc: Global, word: &[u8], number: u32) -> Result<Vec<u8>, AllocError>
    ensures { IfOk result (λ line. line.items ≡ word.now ++ decimal number ++ codes "\n") }
{
    let mut buffer = Buffer::new();
    let mut line = word.to_vec(alloc)?;
    line.extend_from_slice(buffer.format(number).as_bytes())?;
    line.extend_from_slice(b"\n")?;
    Ok(line)
}

/// The line that tells a finding, with its line feed.
///
/// # Errors
///
/// Want of memory.
pub fn line_of(alloc: Global, finding: Finding) -> Result<Vec<u8>, AllocError>
    ensures { IfOk result (λ line. line.items ≡ findings.line_of finding) }
{
    match finding {
        Finding::Alarm => b"replay,alarm\n".to_vec(alloc),
        Finding::Safe => b"replay,safe\n".to_vec(alloc),
        Finding::No { place } => numbered(alloc, b"replay,no,", place),
        Finding::Passes { place } => numbered(alloc, b"replay,passes,", place),
        Finding::Text { line } => numbered(alloc, b"replay,text,", line),
        Finding::Range { line } => numbered(alloc, b"replay,range,", line),
    }
}
