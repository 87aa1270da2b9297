//! Why a sample is refused.

use std::alloc::AllocError;

/// Why a sample was not begun. The first three stand in the order in which they are looked for.
#[derive(Clone, Copy, Debug, PartialEq, Eq)]
pub enum SampleRefusal {
    /// It has more or fewer cells than the session has columns.
    Cells,
    /// Its time is not above that of the sample before, or, where it is the first, below 0.
    Time,
    /// The session has 200,000 samples.
    Limit,
    /// Memory is wanting.
    Memory,
}

impl From<AllocError> for SampleRefusal {
    ghost use Rattle.std.specs.Prelude.{◌≡◌};
    ghost use Rattle.live_session.specs.declared.refusals.SampleRefusal.{SampleRefusal};

    ghost from_gives = { λ _ e. e ≡ SampleRefusal.Memory };

    fn from(_e: AllocError) -> SampleRefusal {
        SampleRefusal::Memory
    }
}
