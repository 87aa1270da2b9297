//! The monitor's top call: reads its words, a model and a log, and writes the report.
#![tactic(auto)]

mod command;
mod models;
mod replaying;
mod telling;

pub use command::{check_log, run, watch_logs};
pub use command_words::{Options, RunsMode};
pub use replaying::replay;
pub use report_loop::Status;

#[cfg(test)]
mod tests;
