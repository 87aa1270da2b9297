//! The run that an alarm stands for: the numbers of a run backwards, from where it ends.
#![tactic(auto)]

mod befores;
mod commons;
mod gaps;
mod parts;
mod paths;
mod shapes;
mod traces;

pub use befores::{jump_before, leg_before, picked_after};
pub use commons::over_all;
pub use gaps::{GapBack, gap_back};
pub use parts::lowest_of;
pub use paths::trace;
pub use shapes::gap_run_of;
pub use traces::{Back, jump_back, leg_back};
