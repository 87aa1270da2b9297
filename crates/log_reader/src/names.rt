//! Fields that are names.

ghost use Rattle.std.specs.Prelude.{◌≡◌, ℕ, List, map, false, IsTrue, SomeIff, IfOk, MatchOption};
ghost use Rattle.std.specs.List.{list_all};
ghost use Rattle.run_specs.specs.Names as names;
ghost use Rattle.run_specs.specs.Names.{is_name};
ghost use Rattle.log_specs.specs.SessionNames as session;

use lha_model::Name;
use std::alloc::{AllocError, Global};

/// The most bytes of a session's name.
const LONGEST: usize = 32;

/// A letter, a digit, `_`, `-` or `.`.
fn is_session_byte(byte: u8) -> bool
    ensures { result ≡ session.is_session_byte byte }
{
    byte.is_ascii_alphanumeric() || byte == b'_' || byte == b'-' || byte == b'.'
}

/// Whether there are 1 to 32 bytes.
fn has_name_length(field: &[u8]) -> bool
    ensures { result ≡ names.has_name_length field.now }
{
    !field.is_empty() && field.len() <= LONGEST
}

/// Whether each byte may stand in a session's name.
fn has_session_bytes(field: &[u8]) -> bool
    ensures { result ≡ list_all session.is_session_byte field.now }
{
    field.iter().all(|byte| is_session_byte(*byte))
}

/// Whether the field is the name of a session.
pub(crate) fn is_session_name(field: &[u8]) -> bool
    ensures { result ≡ session.is_session_name field.now }
{
    has_name_length(field) && has_session_bytes(field)
}

/// The name that the field is; `None` exactly where it is none. Takes no memory.
pub(crate) fn name_of(alloc: Global, field: &[u8]) -> Option<Name>
    ensures { SomeIff result (IsTrue (is_name field.now)) field.now }
{
    match str::from_utf8(field) {
        Ok(text) => Name::make(alloc, text),
        Err(_) => None,
    }
}

/// The names that the fields are, or `None` where one of them is none.
pub(crate) fn names_of(alloc: Global, fields: &[&[u8]]) -> Result<Option<Vec<Name>>, AllocError>
    ensures { IfOk result (λ names. MatchOption names (list_all is_name (map (λ f. f.now) fields.now) ≡ false) (λ names. IsTrue (list_all is_name (map (λ f. f.now) fields.now)) × (names.items ≡ map (λ f. f.now) fields.now))) }
{
    let mut names = Vec::with_capacity(alloc, fields.len())?;
    let mut rest = fields;
    while let [field, others @ ..] = rest {
        let Some(name) = name_of(alloc, field) else {
            return Ok(None);
        };
        names.push(name)?;
        rest = others;
    }
    Ok(Some(names))
}
