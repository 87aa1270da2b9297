//! What one driven sample counted, and why a sample was not driven.

use live_session::SampleRefusal;

/// What one call did to a memo: plain numbers, 0 or 1 each. `hits` and `fills` add up to `looks`.
#[derive(Clone, Copy, Debug, PartialEq, Eq)]
pub struct Counts {
    /// 1 where an entry was wanted for the sample, and so looked for.
    pub looks: u64,
    /// 1 where it stood in the memo.
    pub hits: u64,
    /// 1 where it was made, and put into the memo.
    pub fills: u64,
}

/// Why a sample was not driven.
#[derive(Clone, Copy, Debug, PartialEq, Eq)]
pub enum DriveFault {
    /// The session refuses it, for this reason, which is not want of memory.
    Refused(SampleRefusal),
    /// Memory was wanted.
    Memory,
}
