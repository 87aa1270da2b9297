//! The text of a run, written and read.
#![tactic(auto)]

mod integers;
mod lines;
mod pieces;
mod read;
mod states;
mod write;

pub use read::{TextFault, read_run};
pub use write::{write_behind, write_run};
