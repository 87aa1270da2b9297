//! Whether a system has a point, where that is quickly shown.
//!
//! A search with floats guesses a point, or multiples of rows that cannot hold together. What it
//! guesses is a hint alone: the answer is given after exact arithmetic has confirmed it.
#![tactic(auto)]

mod candidates;
mod certificates;
mod constants;
mod dictionary;
mod equations;
mod floats;
mod marks;
mod ratios;
mod search;
mod showing;

pub use constants::{exceeds, some_never_holds};
pub use marks::likely_needed;
pub use showing::show;

/// What is shown of a system.
#[derive(Clone, Copy, Debug, PartialEq, Eq)]
pub enum Shown {
    /// It has no point.
    Empty,
    /// It has a point.
    Inhabited,
    /// Neither was shown.
    Nothing,
}
