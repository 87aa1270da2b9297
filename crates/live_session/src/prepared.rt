//! What is prepared for a begun sample.

use gap_keys::Key;
use lha_model::Sample;

/// A sample that is begun, and what was prepared for it.
#[derive(Debug, Drop)]
pub(crate) struct Prepared {
    /// As it was given: a cell for each column.
    pub(crate) sample: Sample,
    /// As the log will have it: a cell for each variable.
    pub(crate) placed: Sample,
    /// The key that it wants.
    pub(crate) key: Option<Key>,
}
