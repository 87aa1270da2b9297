//! The rows of the log.

ghost use Rattle.std.specs.Prelude.{◌≡◌, ◌++◌, ◌≤◌, ◌<◌, OnOk, IfOk, codes, decimal};
ghost use Rattle.wave_log.specs.Waves.{each_below, session_count, opening_row, sample_row, rows_at};
ghost use Rattle.wave_log.specs.Waves as waves;

use crate::waves::{sample_count, value_at};
use itoa::Buffer;
use std::alloc::{AllocError, Global};

/// How many sessions there are.
const SESSIONS: u32 = 8;

/// Adds a number.
fn add_number(log: &mut Vec<u8>, number: u32) -> Result<(), AllocError>
    ensures { OnOk result (log.new.items ≡ log.old.items ++ decimal number) }
{
    let mut buffer = Buffer::new();
    log.extend_from_slice(buffer.format(number).as_bytes())?;
    Ok(())
}

/// Adds the row that opens a session.
fn add_opening(log: &mut Vec<u8>, session: u32) -> Result<(), AllocError>
    ensures { OnOk result (log.new.items ≡ log.old.items ++ opening_row session) }
{
    log.extend_from_slice(b"open,s")?;
    add_number(log, session)?;
    log.extend_from_slice(b",T,x\n")?;
    Ok(())
}

/// Adds the row of a sample.
fn add_sample(log: &mut Vec<u8>, seed: u32, time: u32, session: u32) -> Result<(), AllocError>
    requires seed { seed ≤ 999999999 }
    requires session { session < 8 }
    ensures { OnOk result (log.new.items ≡ log.old.items ++ sample_row seed time session) }
{
    log.extend_from_slice(b"at,s")?;
    add_number(log, session)?;
    log.extend_from_slice(b",")?;
    add_number(log, time)?;
    log.extend_from_slice(b",")?;
    add_number(log, value_at(seed, session, time))?;
    log.extend_from_slice(b"\n")?;
    Ok(())
}

/// Adds the rows that open the sessions.
fn add_openings(log: &mut Vec<u8>) -> Result<(), AllocError>
    ensures { OnOk result (log.new.items ≡ log.old.items ++ each_below session_count opening_row) }
{
    for session in 0..SESSIONS {
        add_opening(log, session)?;
    }
    Ok(())
}

/// Adds the rows of one time: a sample of each session.
fn add_samples(log: &mut Vec<u8>, seed: u32, time: u32) -> Result<(), AllocError>
    requires { seed ≤ 999999999 }
    ensures { OnOk result (log.new.items ≡ log.old.items ++ rows_at seed time) }
{
    for session in 0..SESSIONS {
        add_sample(log, seed, time, session)?;
    }
    Ok(())
}

/// The log that a seed of at most 999,999,999 stands for: eight sessions of 500 to 1,000 samples each.
///
/// # Errors
///
/// Want of memory.
pub fn wave_log(alloc: Global, seed: u32) -> Result<Vec<u8>, AllocError>
    requires { seed ≤ 999999999 }
    ensures { IfOk result (λ log. log.items ≡ waves.wave_log seed) }
{
    let mut log = Vec::new(alloc);
    add_openings(&mut log)?;
    for time in 0..sample_count(seed) {
        add_samples(&mut log, seed, time)?;
    }
    Ok(log)
}
