//! The definitions of runs that are given: their text, its first fault, and the check whether they are runs of a log.
#![tactic(auto)]

pub mod checks;
pub mod texts;
