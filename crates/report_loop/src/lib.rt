//! Reads a log line by line and writes the report of it: for one session, or for many.
//!
//! The blocks of lines are written whenever the reader holds no whole line, so that a reader of the output need not wait for the next
//! line of the log. What a status says of the bytes read and written is one definition, `Says`.
#![tactic(auto)]

mod check;
mod status;
mod writing;

pub use check::report_log;
pub use status::Status;
pub use writing::write_all;
