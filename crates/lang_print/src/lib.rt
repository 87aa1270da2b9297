//! The canonical text of models.
#![tactic(auto)]

mod pages;
mod print;

pub use print::print_models;
