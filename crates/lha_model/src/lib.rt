//! The records of models, logs and runs: names, automata within their limits, samples, and the parts of runs.
//!
//! What a contract sees of each is the record of the definitions in `run_specs`.
#![tactic(auto)]

mod automata;
mod boxes;
pub mod equality;
mod logs;
mod names;
mod places;
mod runs;
mod sequences;

pub use automata::Automaton;
pub use logs::{Log, Sample};
pub use names::Name;
pub use places::{Loc, Trans};
pub use runs::{GapRun, Leg, Move, Run};
pub use sequences::Sequence;
