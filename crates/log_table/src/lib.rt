//! The sessions of a log that are open: which rows they take, and what each sample is replied to.
#![tactic(auto)]

mod columns;
mod names;
mod not_taken;
mod opened;
mod table;

pub use not_taken::NotTaken;
pub use table::LogTable;
