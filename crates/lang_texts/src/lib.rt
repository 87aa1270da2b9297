//! Texts of models, read a line at a time into their trees, or to their first fault.
#![tactic(auto)]

mod growing;
mod order;
mod texts;

pub use texts::{LangFault, read_models};
