//! What the systems of legs and jumps share: rows whose columns are parts of a given row's, and
//! what is left of a system in its first columns.
#![tactic(auto)]

mod parts;
mod projection;
mod systems;

pub use parts::{joined, negated, only, opposite, zeros};
pub use projection::project;
pub use systems::of_rows;
