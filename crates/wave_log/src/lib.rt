//! The log that a seed stands for, and the model that its sessions are of.
//!
//! In each of eight sessions a value rises and falls in waves. The seed sets how high they are and
//! how long the log is.
#![tactic(auto)]

mod model;
mod rows;
mod waves;

pub use model::wave_model;
pub use rows::wave_log;
