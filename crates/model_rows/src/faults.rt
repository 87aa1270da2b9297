//! Why no rows are formed.

use std::alloc::AllocError;

/// Why no rows are formed.
#[derive(Clone, Copy, Debug, PartialEq, Eq, Drop)]
pub enum RowFault {
    /// A number passed 128 bits.
    Passes,
    /// There was no memory.
    Memory,
}

impl From<AllocError> for RowFault {
    ghost use Rattle.std.specs.Prelude.{◌≡◌};
    ghost use Rattle.model_rows.specs.declared.faults.RowFault.{RowFault};

    ghost from_gives = { λ _ e. e ≡ RowFault.Memory };

    fn from(_e: AllocError) -> RowFault {
        RowFault::Memory
    }
}
