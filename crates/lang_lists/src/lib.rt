//! Lines of a model that are lists with commas between their items: each is read a token at a time.
#![tactic(auto)]

mod bounds;
mod boxes;
mod lists;
mod names;

pub use bounds::{bounds_of_line, line_bounds};
pub use boxes::{boxes_of_line, line_boxes};
pub use names::{line_names, names_of_line};
