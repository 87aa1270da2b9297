//! Sessions that share one memo behind a lock, side by side, with receipts for what each call did.
//!
//! The lock is held for one look, one put or one giving up at a time, and never while an entry is
//! made.
#![tactic(auto)]

mod driving;
mod kept;
mod receipts;
mod shared;
mod slots;

pub use driving::drive;
pub use kept::Kept;
pub use receipts::Receipt;
pub use shared::{Closed, Shared};
pub use slots::{Slot, run_window};
