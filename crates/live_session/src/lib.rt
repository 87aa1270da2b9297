//! One session of the monitor: it accepts samples one after the other, and replies to each.
//!
//! A session begins a sample, says which key it wants an entry for, is given that entry, and then
//! finishes the sample with a verdict. Who makes the entries is not its concern: each says of itself
//! that it is exact for its key.
#![tactic(auto)]

mod beliefs;
mod crossing;
mod history;
mod placing;
mod prepared;
mod refusals;
mod relation;
mod session;
mod times;

pub use history::History;
pub use refusals::SampleRefusal;
pub use relation::GapRelation;
pub use run_specs::Verdict;
pub use session::Session;
