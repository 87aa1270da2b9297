//! What is decided of systems: whether one has a point, the bound of a sum over its points, whether
//! it entails a row or includes another system, and the point that is picked from its levels. Each
//! answer is exact.
#![tactic(auto)]

mod bounds;
mod caps;
mod emptiness;
mod entailment;
mod inclusion;
mod limits;
mod outside;
mod pruning;
mod sums;
mod thinning;

pub use bounds::sup;
pub use column_pick::pick;
pub use emptiness::is_empty;
pub use entailment::entails;
use frac128::Frac;
pub use inclusion::includes;
pub use point_hints::{Shown, show};
pub use pruning::prune;
pub use thinning::{thinned_left, thinned_levels};

/// The bound of a sum from above, over the points of a system.
#[derive(Clone, Copy, Debug, PartialEq, Eq)]
pub enum Bound {
    /// The system has no point.
    Empty,
    /// The sum exceeds every number.
    Unbounded,
    /// The sum is this at some point, and greater at none.
    Max(Frac),
    /// The sum is below this at each point, and exceeds each number that is less.
    Below(Frac),
}
