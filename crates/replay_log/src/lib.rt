//! Replays the text of a run on the text of a log: reads it from a source, and writes the line that tells what is found of it.
//!
//! What a status says of the bytes read and written is one definition, `SaysReplay`.
#![tactic(auto)]

mod reading;
mod replay;
mod telling;

pub use replay::{TEXT_LIMIT, replay_log};
