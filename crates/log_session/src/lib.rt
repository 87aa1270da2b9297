//! A log that is judged line by line: each line's block in the report, by the table of open sessions.
#![tactic(auto)]

mod judged_log;
mod naming;
mod refusals;
mod running;
mod tally;
mod words;

pub use judged_log::JudgedLog;
pub use tally::Tally;
