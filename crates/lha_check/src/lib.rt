//! Checks the trees of models, and makes the automata that they say.
//!
//! A tree without fault becomes an automaton within its limits. A fault is an unknown or a repeated name, a variable
//! without a box, an empty box, or a number that passes 128 bits in forming rows; the first in the order of the text is
//! told, with its line.
#![tactic(auto)]

mod bounds;
mod boxes;
mod expressions;
mod faults;
mod lists;
mod locations;
mod names;
mod parts;
mod statements;
mod transitions;
mod trees;

pub use faults::CheckFault;
pub use trees::check;
