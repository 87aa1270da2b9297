//! The line of a transition: locations, a label, a guard and acts, read a token at a time.
#![tactic(auto)]

mod acts;
mod expression;
mod transitions;

pub use transitions::{line_transition, transition_of_line};
