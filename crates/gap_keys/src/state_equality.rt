//! Equality of states, and how they are hashed: without their systems, which are long.

ghost use Rattle.std.specs.Prelude.{◌≡◌, ◌==◌, ◌++◌, []};
ghost use Rattle.std.proofs.Common.{rules, refl};
ghost use Rattle.std.proofs.Math.Bool.{beq};
ghost use Rattle.std.specs.Cmp.{booleans_Decides};
ghost use Rattle.std.specs.Cmp.Rules.{comparing};
ghost use Rattle.std.specs.Hash as fed;
ghost use Rattle.std.specs.Hash.{and-Alike, on_Alike, same_Alike};
ghost use Rattle.std.specs.Ordering.{on, eq_of_both};
ghost use Rattle.std.proofs.lemmas.Bool.Decides.{Decides-eqb};
ghost use Rattle.fm_eliminate.specs.contracts.equality.SystemEq.TheImpl.Laws.{laws-law as system_equal};
ghost use Rattle.gap_keys.specs.Views.{system_of};

use crate::State;
use fm_eliminate::System;
use std::hash::{Hash, Hasher};

impl PartialEq for State {
    ghost eq = { eq_of_both (on (λ s. system_of s) ⟦<System as PartialEq>⟧.eq) (eq_of_both (on (λ s. s.state.loc) ◌==◌) (on (λ s. s.state.seen_unsafe) beq)) };

    ghost laws = { Prim.search (comparing, rules, system_equal) };

    fn eq(&self, other: &State) -> bool {
        self.system() == other.system()
            && self.loc() == other.loc()
            && self.seen_unsafe() == other.seen_unsafe()
    }
}

impl Eq for State {
    ghost laws = { Prim.search (comparing, rules, system_equal) };
}

impl Hash for State {
    ghost hash_input = { λ s. fed.u8 s.state.loc ++ fed.bool s.state.seen_unsafe };

    ghost respects_eq = { (and-Alike {F = λ _. []} (record { fed = λ x y e. refl }) (and-Alike (on_Alike (λ s. s.state.loc) (same_Alike fed.u8 Decides-eqb)) (on_Alike (λ s. s.state.seen_unsafe) (same_Alike fed.bool booleans_Decides)))).fed };

    fn hash<H: Hasher>(&self, state: &mut H) {
        self.loc().hash(state);
        self.seen_unsafe().hash(state);
    }
}
