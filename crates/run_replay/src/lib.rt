//! What is found of the text of a run, for the samples that the text of a log accepts.
//!
//! It shares nothing with the monitor: whoever does not trust the monitor learns here whether an alarm that it told is real.
#![tactic(auto)]

mod finding;
mod line;
mod plus_signs;

pub use finding::replay_run;
pub use line::line_of;
pub use replay_reports::Finding;
