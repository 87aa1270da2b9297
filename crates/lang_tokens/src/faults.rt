//! Why a line is none of a model.

ghost use Rattle.std.specs.Prelude.{◌≡◌, ◌||◌, ◌&&◌, Some, None, Ok, Err, MatchOption};
ghost use Rattle.lang_specs.specs.Marks.{mark};
ghost use Rattle.lang_specs.specs.FirstFault.{is_joint};
ghost use Rattle.lang_tokens.specs.Kinds.{same_kind};
ghost use Rattle.lang_tokens.specs.Machines.{passed_alone};
ghost use Rattle.lang_tokens.specs.Places.{placed_of};
ghost use Rattle.lang_tokens.specs.declared.faults.LineFault.TheVariants.{Memory};

use crate::tokens::{Token, literal_value};
use frac128::NumFault;
use lang_specs::{Kind, Which};
use std::alloc::{AllocError, AllocFailed};

/// What is wrong with a token.
#[derive(Clone, Copy, Debug, PartialEq, Eq)]
pub enum Stop {
    /// Nothing allows it.
    Syntax,
    /// It passes a limit.
    Limit(Which),
}

/// The first fault of a line, or that memory ran out.
#[derive(Clone, Copy, Debug, PartialEq, Eq)]
pub enum LineFault {
    /// Nothing allows the token in this column.
    Syntax(u32),
    /// A token passes a limit.
    Limit(Which),
    Memory,
}

impl From<AllocError> for LineFault {
    ghost from_gives = { λ _ e. e ≡ Memory };

    fn from(_e: AllocError) -> LineFault {
        LineFault::Memory
    }
}

impl<T: Drop> From<AllocFailed<T>> for LineFault {
    ghost from_gives = { λ _ e. e ≡ Memory };

    fn from(_e: AllocFailed<T>) -> LineFault {
        LineFault::Memory
    }
}

/// Whether both are one kind.
pub fn is(a: Kind, b: Kind) -> bool
    ensures { result ≡ same_kind a b }
{
    a == b
}

/// Whether a limit on counts is kept at a token: some continuation still keeps to it, or one did before the token, which
/// joins a next item to those before.
pub fn fits_on(before: bool, behind: bool, kind: Kind) -> bool
    ensures { result ≡ behind || (is_joint kind && before) }
{
    behind || (before && matches!(kind, Kind::Comma | Kind::Plus | Kind::Minus))
}

/// The value, unless a limit is passed.
pub fn unless<T: Drop>(passed: Option<Which>, value: T) -> Result<T, LineFault>
    ensures { MatchOption passed (result ≡ Ok value) (λ which. result ≡ Err (LineFault.Limit which)) }
{
    match passed {
        Some(which) => Err(LineFault::Limit(which)),
        None => Ok(value),
    }
}

/// The limit that a name or a literal passes, whatever stands before it.
pub fn passed_alone<'a>(line: u32, token: Token<'a>) -> Option<Which>
    ensures { result ≡ passed_alone (mark (placed_of line token.entry)) }
{
    match token.kind {
        Kind::Name => {
            if token.text.len() > 32 {
                Some(Which::NameBytes)
            } else {
                None
            }
        }
        Kind::Number => match literal_value(token.text) {
            Err(NumFault::Range) => Some(Which::Digits),
            _ => None,
        },
        _ => None,
    }
}
