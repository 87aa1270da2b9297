//! A world of sessions that share one memo, played over a list of atomic steps.
//!
//! Each step is one holding of the memo, or one own step of one session. Whatever the order of the
//! steps, each session is told lawful replies to its own samples.
#![tactic(auto)]

mod events;
mod faults;
pub mod laws;
mod lookups;
mod seats;
mod world;

pub use events::Event;
pub use faults::PlayFault;
pub use world::World;
