//! Why events were not played.

use std::alloc::AllocError;

/// Why not each event of a list was played.
#[derive(Clone, Copy, Debug, PartialEq, Eq)]
pub enum PlayFault {
    /// The event at this place, counted from 0, is not allowed. Those before it have happened.
    NotEnabled {
        /// The place.
        place: u32,
    },
    /// Memory is wanting. Some first events have happened.
    Memory,
}

/// Why a step was not taken.
#[derive(Clone, Copy, Debug, PartialEq, Eq)]
pub(crate) enum StepFault {
    /// It is not allowed.
    NotAllowed,
    /// Memory is wanting.
    Memory,
}

impl From<AllocError> for StepFault {
    ghost use Rattle.std.specs.Prelude.{◌≡◌};
    ghost use Rattle.interleave_core.specs.declared.faults.StepFault.{StepFault};

    ghost from_gives = { λ _ e. e ≡ StepFault.Memory };

    fn from(_e: AllocError) -> StepFault {
        StepFault::Memory
    }
}
