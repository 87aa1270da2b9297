//! The columns of a header, by the numbers of their variables.

ghost use Rattle.std.specs.Prelude.{◌≡◌, ◌≤◌, length, IfOk, MatchOption, false, bytes_eq};
ghost use Rattle.std.specs.List.{position};
ghost use Rattle.log_specs.specs.LogSessions as sessions;
ghost use Rattle.log_specs.specs.LogSessions.{are_columns};
ghost use Rattle.log_table.specs.Columns.{AreNumbersOf};

use lha_model::Name;
use std::alloc::{AllocError, Global};

/// Whether two names are one.
fn are_same(name: &Name, other: &Name) -> bool
    ensures { result ≡ bytes_eq name.now other.now }
{
    name.bytes() == other.bytes()
}

/// Whether the name is among others.
fn is_among(names: &[Name], name: &Name) -> bool
    ensures { result ≡ sessions.is_among names.now name.now }
{
    names.iter().any(|other| are_same(name, other))
}

/// The number of the variable of this name.
fn number_of(variables: &[Name], name: &Name) -> Option<usize>
    ensures { result ≡ position (bytes_eq name.now) variables.now }
{
    variables
        .iter()
        .position(|variable| are_same(name, variable))
}

/// The numbers of the variables that the names are; `None` where a name is no variable, or repeats.
pub(crate) fn columns_of(
    alloc: Global,
    variables: &[Name],
    names: &[Name],
) -> Result<Option<Vec<u8>>, AllocError>
    requires { length variables.now ≤ 6 }
    ensures { IfOk result (λ columns. MatchOption columns (are_columns variables.now names.now ≡ false)
        (λ c. AreNumbersOf variables.now names.now c.items)) }
{
    let mut columns = Vec::new(alloc);
    for (i, name) in names.iter().enumerate() {
        let Some(place) = number_of(variables, name) else {
            return Ok(None);
        };
        if is_among(&names[i + 1..], name) {
            return Ok(None);
        }
        columns.push(place as u8)?;
    }
    Ok(Some(columns))
}
