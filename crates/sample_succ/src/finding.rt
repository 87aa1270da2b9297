//! What a walk over the paths of a gap goes through, and what it finds.

use fm_eliminate::System;

/// A state that was found after the gap: its rows have as many columns as there are variables.
#[derive(Drop)]
pub struct Found {
    /// The number of the state before the gap.
    pub parent: usize,
    /// The transitions from there.
    pub path: Vec<u8>,
    /// Where the path ends.
    pub loc: u8,
    /// Whether a run along it visited an unsafe location, or one to its parent did.
    pub seen_unsafe: bool,
    /// Where runs along it end.
    pub rows: System,
}

/// A path of a gap, up to its last jump.
#[derive(Drop)]
pub struct Node {
    /// The number of the state before the gap.
    pub parent: usize,
    /// The transitions from there.
    pub path: Vec<u8>,
    /// The location that the last jump leads to.
    pub loc: u8,
    /// Whether this location is unsafe, or a run to here visited an unsafe one.
    pub seen_unsafe: bool,
    /// Where runs may stand there, with the elapsed time.
    pub before: System,
}
