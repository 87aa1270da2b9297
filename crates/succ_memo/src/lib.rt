//! Entries of keys and values that belong together, and a memo that keeps them.
//!
//! A `Relation` says which values are right for a key. A `Filler` makes such a value, a `Held` is a
//! key beside one, and a `MemoState` keeps entries for keys that come again.
#![tactic(auto)]

mod crossing;
mod filler;
mod memo;
mod relation;
mod storage;

pub use filler::{Fill, Filler};
pub use memo::{Look, MemoState, PutFault, Ticket, Totals};
pub use relation::{Held, Relation};
