//! Why a row is not taken.

use log_specs::Refusal;
use std::alloc::AllocError;

/// Why a row changed nothing in the table.
#[derive(Clone, Copy, Debug, PartialEq, Eq)]
pub enum NotTaken {
    /// It is refused by this word, the first that applies.
    Refused(Refusal),
    /// Memory was wanted.
    Memory,
}

impl From<AllocError> for NotTaken {
    ghost use Rattle.std.specs.Prelude.{◌≡◌};
    ghost use Rattle.log_table.specs.declared.not_taken.NotTaken.{NotTaken};

    ghost from_gives = { λ _ e. e ≡ NotTaken.Memory };

    fn from(_e: AllocError) -> NotTaken {
        NotTaken::Memory
    }
}
