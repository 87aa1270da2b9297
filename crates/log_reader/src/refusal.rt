//! Why a line is no row.

ghost use Rattle.std.specs.Prelude.{◌≡◌};
ghost use Rattle.log_reader.specs.declared.refusal.RowRefusal.TheVariants as refusal;

use std::alloc::{AllocError, AllocFailed};

/// Why a line is refused, in the order in which the causes are looked at; or memory ran out.
#[derive(Clone, Copy, Debug, PartialEq, Eq)]
pub enum RowRefusal {
    /// More than 4,096 bytes.
    Long,
    /// No UTF-8, or a carriage return inside.
    Text,
    /// Fields that make no row.
    Fields,
    /// A name that is none.
    Name,
    /// A time or a cell that is no number of a log.
    Number,
    Memory,
}

impl From<AllocError> for RowRefusal {
    ghost from_gives = { λ _ e. e ≡ refusal.Memory };

    fn from(_e: AllocError) -> RowRefusal {
        RowRefusal::Memory
    }
}

impl<T: Drop> From<AllocFailed<T>> for RowRefusal {
    ghost from_gives = { λ _ e. e ≡ refusal.Memory };

    fn from(_e: AllocFailed<T>) -> RowRefusal {
        RowRefusal::Memory
    }
}
