//! What the states after a gap depend on, and what is said of them: states, keys, items and
//! outcomes.
//!
//! What a contract sees of each is the record of the definitions in `run_specs`.
#![tactic(auto)]

mod crossing;
pub mod equality;
mod key_equality;
mod keys;
mod outcomes;
mod state_equality;
mod states;

pub use keys::Key;
pub use outcomes::{Item, Next, Outcome};
pub use states::{Belief, State};
