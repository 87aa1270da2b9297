//! States and keys are equal exactly where their records are.

ghost use Rattle.std.specs.Prelude.{◌≡◌, ◌↔◌, IsTrue};
ghost use Rattle.run_specs.specs.Keys as keys;
ghost use Rattle.gap_keys.specs.Views.{StateView};

use crate::{Key, State};

/// States are equal exactly where their records are, and their systems were made for as many columns.
pub fn equal_states()
    ensures { (x y : StateView) → IsTrue (⟦<State as PartialEq>⟧.eq x y) ↔ (x ≡ y) }
{}

/// Keys are equal exactly where their records are.
pub fn equal_keys()
    ensures { (x y : keys.Key) → IsTrue (⟦<Key as PartialEq>⟧.eq x y) ↔ (x ≡ y) }
{}
