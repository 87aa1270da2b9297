//! Drives the samples of a session: each begins, is given the entry that it wants, and is finished with a reply.
//!
//! How the entry is found is a matter of the driver. `Stepping` makes each by a step over the gap.
//! `Remembering` looks for it in a memo first, as `drive_local` does in a memo that it is lent.
#![tactic(auto)]

mod counts;
mod crossing;
mod driver;
mod fillers;
mod local;
mod remembering;
mod stepping;

pub use counts::{Counts, DriveFault};
pub use driver::Drive;
pub use fillers::{GatedStep, Step};
pub use local::{NO_LOOK, ONE_FILL, ONE_HIT, begin, drive_local, made_twice, put_or_give_up};
pub use remembering::Remembering;
pub use stepping::Stepping;
