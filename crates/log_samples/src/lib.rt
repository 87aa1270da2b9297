//! The samples that the text of a log of one session accepts.
//!
//! It shares nothing with the monitor: what is accepted depends on the lines alone.
#![tactic(auto)]

mod lines;
mod rows;
mod samples;
mod so_far;

pub use samples::samples_of;
