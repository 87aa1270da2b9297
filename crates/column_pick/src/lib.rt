//! Extends a point column by column, from the levels of a system: each further number is the pick
//! of the values that the system leaves for its column.
#![tactic(auto)]

mod common;
mod gaps;
mod nexts;
mod parts;
mod picking;
mod picks;
mod ranges;
mod wholes;

pub use picking::pick;
