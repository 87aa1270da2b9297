//! The definitions of the automata that trees say, and of what is wrong with trees.
#![tactic(auto)]

pub mod examples;
pub mod laws;
