//! Reads the text of a model: its automata, or what is wrong with it and the line that tells this.
#![tactic(auto)]

mod faults;
mod lines;
mod texts;

pub use faults::ModelFault;
pub use texts::read_automata;
