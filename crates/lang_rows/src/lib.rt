//! Lines of a model that are lists of constraints: each is read a token at a time.
#![tactic(auto)]

pub mod expressions;
pub mod rows;

pub use rows::{line_rows, rows_of_line};
