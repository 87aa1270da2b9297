//! Keys of gaps with their outcomes.

use gap_keys::{Key, Outcome};
use std::alloc::{AllocError, Global};
use succ_memo::Relation;

/// The outcome is exact for the key, and the systems of its states are over the automaton's variables.
pub struct GapRelation;

impl Relation for GapRelation {
    ghost use Rattle.gap_keys.specs.Answering.{IsAnswer};

    type Key = Key;

    type Val = Outcome;

    ghost holds = { λ key val. IsAnswer key val };

    fn copy_key(alloc: Global, key: &Key) -> Result<Key, AllocError> {
        key.copy(alloc)
    }
}
