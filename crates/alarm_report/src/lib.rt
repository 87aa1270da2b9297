//! The lines of a report.
#![tactic(auto)]

mod lines;
mod runs;
mod words;

pub use lines::{line_for, put_answer, put_line, put_refusal, refusal_line, reserve_line};
pub use log_specs::Refusal;
pub use runs::run_lines;
