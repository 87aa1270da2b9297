//! The rows that lines are.

ghost use Rattle.std.specs.Prelude.{◌≡◌, ℕ, List, [], ◌∷◌, map, Ok, IfOk, IfErr};
ghost use Rattle.report_specs.specs.Lines.{HasNoFeed};
ghost use Rattle.log_specs.specs.LogRows as rows;
ghost use Rattle.log_specs.specs.LogRows.{read_row, read_header, read_cells};
ghost use Rattle.log_reader.specs.Rows.{row_said, cells_said, IsRefused};

use crate::RowRefusal;
use crate::fields::Record;
use crate::names::{is_session_name, name_of, names_of};
use crate::numbers::{cells_of, number_of};
use frac128::Frac;
use lha_model::Name;
use std::alloc::Global;

/// A row of `watch`.
#[derive(Drop)]
pub enum LogRow {
    /// A session of this automaton begins, with these observed variables.
    Opening {
        session: Vec<u8>,
        automaton: Name,
        columns: Vec<Name>,
    },
    /// A sample, with a cell for each observed variable.
    Sample {
        session: Vec<u8>,
        time: Frac,
        cells: Vec<Option<Frac>>,
    },
    /// A session ends.
    Closing {
        session: Vec<u8>,
    },
    /// A window ends.
    Flush,
}

/// An opening of this session.
fn opening(
    alloc: Global,
    session: &[u8],
    automaton: &[u8],
    columns: &[&[u8]],
) -> Result<LogRow, RowRefusal>
    ensures row { IfOk result (λ r. rows.opening_of (session.now ∷ automaton.now ∷ map (λ f. f.now) columns.now) ≡ Ok (row_said r)) }
    ensures refusal { IfErr result (λ e. IsRefused e (rows.opening_of (session.now ∷ automaton.now ∷ map (λ f. f.now) columns.now))) }
{
    if !is_session_name(session) {
        return Err(RowRefusal::Name);
    }
    let Some(automaton) = name_of(alloc, automaton) else {
        return Err(RowRefusal::Name);
    };
    let Some(columns) = names_of(alloc, columns)? else {
        return Err(RowRefusal::Name);
    };
    let session = session.to_vec(alloc)?;
    Ok(LogRow::Opening {
        session,
        automaton,
        columns,
    })
}

/// A session, an automaton, and columns or none.
fn opening_of(alloc: Global, fields: &[&[u8]]) -> Result<LogRow, RowRefusal>
    ensures row { IfOk result (λ r. rows.opening_of (map (λ f. f.now) fields.now) ≡ Ok (row_said r)) }
    ensures refusal { IfErr result (λ e. IsRefused e (rows.opening_of (map (λ f. f.now) fields.now))) }
{
    match fields {
        [session, automaton, columns @ ..] => opening(alloc, session, automaton, columns),
        [_] | [] => Err(RowRefusal::Fields),
    }
}

/// A time, and the cells after it.
fn time_and_cells(alloc: Global, fields: &[&[u8]]) -> Result<(Frac, Vec<Option<Frac>>), RowRefusal>
    ensures cells { IfOk result (λ p. rows.time_and_cells (map (λ f. f.now) fields.now) ≡ Ok (cells_said p)) }
    ensures refusal { IfErr result (λ e. IsRefused e (rows.time_and_cells (map (λ f. f.now) fields.now))) }
{
    let [time, cells @ ..] = fields else {
        return Err(RowRefusal::Number);
    };
    let Ok(time) = number_of(time) else {
        return Err(RowRefusal::Number);
    };
    let Some(cells) = cells_of(alloc, cells)? else {
        return Err(RowRefusal::Number);
    };
    Ok((time, cells))
}

/// A session, a time, and cells or none.
fn sample_of(alloc: Global, fields: &[&[u8]]) -> Result<LogRow, RowRefusal>
    ensures row { IfOk result (λ r. rows.sample_of (map (λ f. f.now) fields.now) ≡ Ok (row_said r)) }
    ensures refusal { IfErr result (λ e. IsRefused e (rows.sample_of (map (λ f. f.now) fields.now))) }
{
    let [session, samples @ ..] = fields else {
        return Err(RowRefusal::Fields);
    };
    if samples.is_empty() {
        return Err(RowRefusal::Fields);
    }
    if !is_session_name(session) {
        return Err(RowRefusal::Name);
    }
    let (time, cells) = time_and_cells(alloc, samples)?;
    let session = session.to_vec(alloc)?;
    Ok(LogRow::Sample {
        session,
        time,
        cells,
    })
}

/// A session alone.
fn closing_of(alloc: Global, fields: &[&[u8]]) -> Result<LogRow, RowRefusal>
    ensures row { IfOk result (λ r. rows.closing_of (map (λ f. f.now) fields.now) ≡ Ok (row_said r)) }
    ensures refusal { IfErr result (λ e. IsRefused e (rows.closing_of (map (λ f. f.now) fields.now))) }
{
    let [session] = fields else {
        return Err(RowRefusal::Fields);
    };
    if !is_session_name(session) {
        return Err(RowRefusal::Name);
    }
    let session = session.to_vec(alloc)?;
    Ok(LogRow::Closing { session })
}

/// Nothing.
fn flush_of(fields: &[&[u8]]) -> Result<LogRow, RowRefusal>
    ensures row { IfOk result (λ r. rows.flush_of (map (λ f. f.now) fields.now) ≡ Ok (row_said r)) }
    ensures refusal { IfErr result (λ e. IsRefused e (rows.flush_of (map (λ f. f.now) fields.now))) }
{
    if fields.is_empty() {
        Ok(LogRow::Flush)
    } else {
        Err(RowRefusal::Fields)
    }
}

/// A row by its first field, which is its word.
fn row_of(alloc: Global, fields: &[&[u8]]) -> Result<LogRow, RowRefusal>
    ensures row { IfOk result (λ r. rows.row_of (map (λ f. f.now) fields.now) ≡ Ok (row_said r)) }
    ensures refusal { IfErr result (λ e. IsRefused e (rows.row_of (map (λ f. f.now) fields.now))) }
{
    let [word, others @ ..] = fields else {
        return Err(RowRefusal::Fields);
    };
    if *word == b"open".as_slice() {
        opening_of(alloc, others)
    } else if *word == b"at".as_slice() {
        sample_of(alloc, others)
    } else if *word == b"close".as_slice() {
        closing_of(alloc, others)
    } else if *word == b"flush".as_slice() {
        flush_of(others)
    } else {
        Err(RowRefusal::Fields)
    }
}

/// The columns after the word `time`.
fn header_of(alloc: Global, fields: &[&[u8]]) -> Result<Vec<Name>, RowRefusal>
    ensures columns { IfOk result (λ names. rows.header_of (map (λ f. f.now) fields.now) ≡ Ok names.items) }
    ensures refusal { IfErr result (λ e. IsRefused e (rows.header_of (map (λ f. f.now) fields.now))) }
{
    let [word, columns @ ..] = fields else {
        return Err(RowRefusal::Fields);
    };
    if *word != b"time".as_slice() {
        return Err(RowRefusal::Fields);
    }
    match names_of(alloc, columns)? {
        Some(names) => Ok(names),
        None => Err(RowRefusal::Name),
    }
}

/// The row of `watch` that a line is.
pub fn parse_row(alloc: Global, line: &[u8]) -> Result<LogRow, RowRefusal>
    requires { HasNoFeed line.now }
    ensures row { IfOk result (λ r. read_row line.now ≡ Ok (row_said r)) }
    ensures refusal { IfErr result (λ e. IsRefused e (read_row line.now)) }
{
    let record = Record::read(alloc, line)?;
    let fields = record.fields(alloc)?;
    row_of(alloc, &fields)
}

/// The columns of the header of `check` that a line is.
pub fn parse_header(alloc: Global, line: &[u8]) -> Result<Vec<Name>, RowRefusal>
    requires { HasNoFeed line.now }
    ensures columns { IfOk result (λ names. read_header line.now ≡ Ok names.items) }
    ensures refusal { IfErr result (λ e. IsRefused e (read_header line.now)) }
{
    let record = Record::read(alloc, line)?;
    let fields = record.fields(alloc)?;
    header_of(alloc, &fields)
}

/// The time and the cells of a line of `check`.
pub fn parse_cells(alloc: Global, line: &[u8]) -> Result<(Frac, Vec<Option<Frac>>), RowRefusal>
    requires { HasNoFeed line.now }
    ensures cells { IfOk result (λ p. read_cells line.now ≡ Ok (cells_said p)) }
    ensures refusal { IfErr result (λ e. IsRefused e (read_cells line.now)) }
{
    let record = Record::read(alloc, line)?;
    let fields = record.fields(alloc)?;
    time_and_cells(alloc, &fields)
}
