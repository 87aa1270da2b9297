// A log of 1,000 short rows is read and parsed a thousand times.
use log_reader::{Line, LineReader, parse_cells};
use mon_io::SureSource;
use std::alloc::{AllocError, Global};

const ROWS: u32 = 1000;

const ROUNDS: u32 = 1000;

/// More bytes than the log has.
const MOST: u64 = 1_000_000;

/// Rows of a time and a value, as `12.5,88.25`.
fn log_text(alloc: Global) -> Result<String, AllocError> {
    let mut text = String::new(alloc);
    for k in 0..ROWS {
        let value = 100 - k % 100;
        writeln!(text, "{k}.5,{value}.25")?;
    }
    Ok(text)
}

/// Whether the next line is a row of numbers.
fn reads_row(alloc: Global, reader: &mut LineReader, source: &mut SureSource) -> bool {
    match reader.next_line(alloc, source) {
        Ok(Line::Text { bytes, .. }) => match parse_cells(alloc, &bytes) {
            Ok(_) => true,
            Err(_) => false,
        },
        Ok(_) => false,
        Err(_) => false,
    }
}

/// How many of the first lines are rows of numbers.
fn rows_read(alloc: Global, reader: &mut LineReader, source: &mut SureSource) -> u32 {
    let mut count = 0u32;
    for _ in 0..ROWS {
        if reads_row(alloc, reader, source) {
            count = count.wrapping_add(1);
        }
    }
    count
}

/// How many rows one reading of the log gives. One that lacks memory gives none.
fn rows_of(alloc: Global, text: &str) -> u32 {
    let Ok(log) = text.as_bytes().to_vec(alloc) else {
        return 0
    };
    let Ok(mut reader) = LineReader::new(alloc, MOST) else {
        return 0
    };
    let mut source = SureSource::new(log);
    rows_read(alloc, &mut reader, &mut source)
}

/// How many rows were read, and in how many readings. `None` where memory is wanted for the log.
pub(crate) fn timed(alloc: Global) -> Option<(u32, u32)> {
    let text = log_text(alloc).ok()?;
    let mut count = 0u32;
    for _ in 0..ROUNDS {
        count = count.wrapping_add(rows_of(alloc, &text));
    }
    Some((count, ROUNDS))
}
