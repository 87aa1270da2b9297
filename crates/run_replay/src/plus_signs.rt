//! Runs as they stand in a report, each line behind `+ `.

ghost use Rattle.std.specs.Prelude.{◌≡◌, ◌≤◌, ◌+◌, ◌++◌, ◌∷◌, [], length, OnOk, IfOk};
ghost use Rattle.replay_reports.specs.PlusSigns as plus;

use log_reader::first_feed;
use std::alloc::{AllocError, Global};

/// A line without one `+ ` at its beginning.
fn without_plus(line: &[u8]) -> &[u8]
    ensures value { result.now ≡ plus.without_plus line.now }
    ensures shorter { length result.now ≤ length line.now }
{
    if line.len() >= 2 && line[0] == b'+' && line[1] == b' ' {
        &line[2..]
    } else {
        line
    }
}

/// Appends a line without its `+ `, and a line feed.
fn add_line(plain: &mut Vec<u8>, line: &[u8]) -> Result<(), AllocError>
    ensures line { OnOk result (plain.new.items ≡ plain.old.items ++ (plus.without_plus line.now ++ 10 ∷ [])) }
    ensures shorter { OnOk result (length plain.new.items ≤ length plain.old.items + (length line.now + 1)) }
{
    plain.extend_from_slice(without_plus(line))?;
    plain.push(b'\n')?;
    Ok(())
}

/// A text whose lines are without the `+ ` at their beginning.
pub(crate) fn without_plus_signs(alloc: Global, text: &[u8]) -> Result<Vec<u8>, AllocError>
    ensures value { IfOk result (λ v. v.items ≡ plus.without_plus_signs text.now) }
    ensures shorter { IfOk result (λ v. length v.items ≤ length text.now) }
{
    let mut plain = Vec::with_capacity(alloc, text.len())?;
    let mut rest = text;
    while let Some(at) = first_feed(rest) {
        add_line(&mut plain, &rest[..at])?;
        rest = &rest[at + 1..];
    }
    plain.extend_from_slice(without_plus(rest))?;
    Ok(plain)
}
