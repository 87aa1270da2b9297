//! What a line says to an automaton.

ghost use Rattle.std.specs.Prelude.{◌≡◌, ◌≢◌, ◌<◌, map, length, IfOk, OnOk, IfSome};
ghost use Rattle.std.specs.Option.{option_map};
ghost use Rattle.report_specs.specs.Lines.{HasNoFeed};
ghost use Rattle.log_specs.specs.LogRows.{read_header, read_cells};
ghost use Rattle.log_specs.specs.LogSessions as sessions;
ghost use Rattle.log_specs.specs.LogSessions.{are_columns, cell_under, may_follow};
ghost use Rattle.log_reader.specs.declared.refusal.RowRefusal.TheVariants.{Memory};
ghost use Rattle.log_samples.specs.Rows as rows;
ghost use Rattle.log_samples.specs.Rows.{IsHeaderOf, IsSampleOf};

use frac128::Frac;
use lha_model::{Automaton, Name, Sample};
use log_reader::{RowRefusal, parse_cells, parse_header};
use std::alloc::{AllocError, Global};

/// The most samples that are accepted.
const MOST_ACCEPTED: usize = 200_000;

/// Whether the name is among others.
fn is_among(names: &[Name], name: &Name) -> bool
    ensures { result ≡ sessions.is_among names.now name.now }
{
    names.iter().any(|other| name.bytes() == other.bytes())
}

/// Whether each name is a variable, and none repeats.
fn are_columns(variables: &[Name], names: &[Name]) -> bool
    ensures { result ≡ are_columns variables.now names.now }
{
    let mut rest = names;
    while let [name, others @ ..] = rest {
        if !is_among(variables, name) || is_among(others, name) {
            return false;
        }
        rest = others;
    }
    true
}

/// An error where there was no memory to read a line, and none where the line is refused.
fn tell_memory(refusal: RowRefusal) -> Result<(), AllocError>
    ensures { OnOk result (refusal ≢ Memory) }
{
    match refusal {
        RowRefusal::Memory => Err(AllocError),
        _ => Ok(()),
    }
}

/// The columns of the header that a line is; `None` where it is refused.
pub(crate) fn columns_of(
    alloc: Global,
    automaton: &Automaton,
    line: &[u8],
) -> Result<Option<Vec<Name>>, AllocError>
    requires { HasNoFeed line.now }
    ensures { IfOk result (λ columns. IsHeaderOf automaton.now (read_header line.now) (option_map (λ c. c.items) columns)) }
{
    match parse_header(alloc, line) {
        Ok(names) => {
            if are_columns(automaton.vars(), &names) {
                Ok(Some(names))
            } else {
                Ok(None)
            }
        }
        Err(refusal) => {
            tell_memory(refusal)?;
            Ok(None)
        }
    }
}

/// Whether a number is below another.
fn is_below(x: &Frac, y: &Frac) -> bool
    ensures { result ≡ sessions.is_below x.now y.now }
{
    x.cmp(y).is_lt()
}

/// Whether a sample of this time may come after these.
fn may_follow(samples: &[Sample], time: &Frac) -> bool
    ensures { result ≡ may_follow samples.now time.now }
{
    match samples.last() {
        Some(last) => is_below(last.time(), time),
        None => time.num() >= 0,
    }
}

/// What stands under a variable's column; a blank where it has none.
fn cell_under(columns: &[Name], cells: &[Option<Frac>], variable: &Name) -> Option<Frac>
    ensures { result ≡ cell_under columns.now cells.now variable.now }
{
    let [column, other_columns @ ..] = columns else {
        return None;
    };
    let [cell, other_cells @ ..] = cells else {
        return None;
    };
    if variable.bytes() == column.bytes() {
        *cell
    } else {
        cell_under(other_columns, other_cells, variable)
    }
}

/// A cell for each variable.
fn cells_by_variable(
    alloc: Global,
    variables: &[Name],
    columns: &[Name],
    cells: &[Option<Frac>],
) -> Result<Vec<Option<Frac>>, AllocError>
    ensures { IfOk result (λ v. v.items ≡ map (cell_under columns.now cells.now) variables.now) }
{
    let mut by_variable = Vec::with_capacity(alloc, variables.len())?;
    for variable in variables {
        by_variable.push(cell_under(columns, cells, variable))?;
    }
    Ok(by_variable)
}

/// Whether no more samples are accepted.
fn is_full(samples: &[Sample]) -> bool
    ensures { result ≡ rows.is_full samples.now }
{
    samples.len() >= MOST_ACCEPTED
}

/// Whether a sample of this time with these cells is accepted after others.
fn is_accepted(columns: &[Name], samples: &[Sample], time: &Frac, cells: &[Option<Frac>]) -> bool
    ensures { result ≡ rows.is_accepted (length columns.now) samples.now (record { time = time.now; cells = cells.now }) }
{
    cells.len() == columns.len() && may_follow(samples, time) && !is_full(samples)
}

/// The sample that a line adds to others of a session with these columns; `None` where it is refused.
pub(crate) fn sample_of(
    alloc: Global,
    automaton: &Automaton,
    columns: &[Name],
    samples: &[Sample],
    line: &[u8],
) -> Result<Option<Sample>, AllocError>
    requires { HasNoFeed line.now }
    ensures sample { IfOk result (IsSampleOf automaton.now columns.now samples.now (read_cells line.now)) }
    ensures room { IfOk result (λ found. IfSome found (λ _. length samples.now < 200000)) }
{
    let (time, cells) = match parse_cells(alloc, line) {
        Ok(row) => row,
        Err(refusal) => {
            tell_memory(refusal)?;
            return Ok(None);
        }
    };
    if !is_accepted(columns, samples, &time, &cells) {
        return Ok(None);
    }
    let cells = cells_by_variable(alloc, automaton.vars(), columns, &cells)?;
    Ok(Some(Sample::new(time, cells)))
}
