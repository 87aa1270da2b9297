//! The atomic steps of a world.

use lha_model::Sample;

/// One atomic step of the session of this number, counted from 0.
#[derive(Debug, Drop)]
pub enum Event {
    /// It begins a sample, which has a cell for each of its columns.
    Begin {
        /// The session.
        session: u32,
        /// The sample.
        sample: Sample,
    },
    /// The entry that it wants stands in the memo, and is given to it.
    LookHit {
        /// The session.
        session: u32,
    },
    /// The memo has no entry for the key that it wants.
    LookMiss {
        /// The session.
        session: u32,
    },
    /// The entry that the memo lacked is made.
    Fill {
        /// The session.
        session: u32,
    },
    /// The made entry is put into the memo, and given to it.
    Put {
        /// The session.
        session: u32,
    },
    /// Its sample is accepted, and its reply told.
    Finish {
        /// The session.
        session: u32,
    },
}
