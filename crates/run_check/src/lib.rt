//! Whether a run that was read is a run of a log: the plain check of what a run is.
//!
//! It shares nothing with the monitor's elimination, so that it tells an engineer who does not
//! trust the monitor whether an alarm is real. No call takes memory.
#![tactic(auto)]

mod check;
mod ends;
mod gaps;
mod legs;
mod numbers;
mod paths;
mod places;
mod rows;

pub use check::{RunPasses, Verified, check_run};
pub use lha_model::{GapRun, Leg, Move, Run};
