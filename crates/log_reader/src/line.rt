// A line and its bytes.
ghost use Rattle.std.specs.Prelude.{◌≡◌, IfOk};
ghost use Rattle.report_specs.specs.Lines.{without_mark, without_return, unmarked};
ghost use Rattle.log_reader.specs.Reading.{Shows};

use std::alloc::{AllocError, Global};

const MOST_BYTES: usize = 4096;

/// The next line, with its number from 1 and without its end.
#[derive(Drop)]
pub enum Line {
    Text { number: u64, bytes: Vec<u8> },
    /// A line of more than 4,096 bytes.
    Long { number: u64 },
    End,
}

/// A line without one carriage return at its end.
pub fn without_return(raw: &[u8]) -> &[u8]
    ensures { result.now ≡ without_return raw.now }
{
    let size = raw.len();
    if size > 0 && raw[size - 1] == b'\r' {
        &raw[..size - 1]
    } else {
        raw
    }
}

/// The bytes after the mark at the start of an input.
pub fn without_mark(raw: &[u8]) -> &[u8]
    ensures { result.now ≡ without_mark raw.now }
{
    if raw.len() >= 3 && raw[0] == 0xEF && raw[1] == 0xBB && raw[2] == 0xBF {
        &raw[3..]
    } else {
        raw
    }
}

/// The bytes of a line, without the mark before the first one.
pub(crate) fn unmarked(raw: &[u8], given: u64) -> &[u8]
    ensures { result.now ≡ unmarked given raw.now }
{
    if given == 0 { without_mark(raw) } else { raw }
}

/// A line of these bytes.
pub(crate) fn shown(alloc: Global, number: u64, text: &[u8]) -> Result<Line, AllocError>
    ensures { IfOk result (λ line. Shows line number text.now) }
{
    if text.len() > MOST_BYTES {
        return Ok(Line::Long { number });
    }
    let bytes = text.to_vec(alloc)?;
    Ok(Line::Text { number, bytes })
}
