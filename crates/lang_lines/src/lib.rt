//! Lines of a model behind their first words.
#![tactic(auto)]

mod lines;
mod lists;
mod short;
mod statements;

pub use lines::line_body;
pub use statements::Line;
