//! The rows of a model: its constraints, the slopes of its locations and its transitions, as linear rows of integers.
//!
//! Each call is exact: it forms the rows that the text says, or answers that a number passes 128 bits on the way.
#![tactic(auto)]

mod acts;
mod comparisons;
mod faults;
mod names;
mod parts;
mod rows;
mod slopes;

pub use acts::transition_rows;
pub use comparisons::constraint_rows;
pub use faults::RowFault;
pub use slopes::slope_rows;
