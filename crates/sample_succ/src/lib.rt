//! From the states before a gap, and the sample after it, to the states after it.
#![tactic(auto)]

mod covering;
mod finding;
mod gap_parts;
mod gap_starts;
mod gap_step;
mod gap_walk;
mod last_leg;
mod sample_rows;
mod sampling;
mod start;
mod stepping;

pub use gap_keys::{Belief, Item, Key, Next, Outcome, State};
pub use gap_parts::stages;
pub use gap_step::step;
pub use sampling::sample_stage;
pub use start::opening;
