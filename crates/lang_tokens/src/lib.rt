//! The lines of a model's text and their tokens; and what is wrong with a line that no model has.
#![tactic(auto)]

mod faults;
mod lines;
mod tokens;

pub use faults::{LineFault, Stop, fits_on, is, passed_alone, unless};
pub use lines::next_line;
pub use tokens::{Token, line_tokens, literal_value, name_of};
