//! Equality of keys, and how they are hashed: without their automata, which are long.

ghost use Rattle.std.specs.Prelude.{◌≡◌, ◌==◌, ◌++◌, []};
ghost use Rattle.std.proofs.Common.{rules, refl};
ghost use Rattle.std.proofs.Math.Bool.{beq};
ghost use Rattle.std.specs.Cmp.{booleans_Decides};
ghost use Rattle.std.specs.Cmp.Lexicographic.{pointwise};
ghost use Rattle.std.specs.Cmp.Rules.{comparing};
ghost use Rattle.std.specs.Hash as fed;
ghost use Rattle.std.specs.Hash.{and-Alike, on_Alike, same_Alike, items_Alike};
ghost use Rattle.std.specs.Option.{option_eq};
ghost use Rattle.std.specs.Ordering.{on, eq_of_both};
ghost use Rattle.std.proofs.lemmas.Bool.Decides.{Decides-eqb};
ghost use Rattle.lha_model.specs.contracts.automata.AutomatonEq.TheImpl.Laws.{laws-law as automaton_equal};
ghost use Rattle.frac128.specs.contracts.FracEq.TheImpl.Laws.{laws-law as fraction_equal};
ghost use Rattle.frac128.specs.contracts.FracHash.TheImpl.Laws.{respects_eq-law as fraction_alike};
ghost use Rattle.lin_row.specs.contracts.RowEq.TheImpl.Laws.{laws-law as row_equal};
ghost use Rattle.gap_keys.specs.Feeding.{options_Alike};
ghost use Rattle.gap_keys.specs.Views.{states_of};

use crate::{Key, State};
use frac128::Frac;
use lha_model::Automaton;
use lin_row::Row;
use std::hash::{Hash, Hasher};

fn same_automaton(a: &Automaton, b: &Automaton) -> bool
    ensures { result ≡ ⟦<Automaton as PartialEq>⟧.eq a.now b.now }
{
    a == b
}

/// Whether the states are equal. In a key their systems are of the same width.
fn is_alike(state: &State, other: &State) -> bool
    ensures { result ≡ (eq_of_both (on (λ s. s.rows) (pointwise ⟦<Row as PartialEq>⟧.eq)) (eq_of_both (on (λ s. s.loc) ◌==◌) (on (λ s. s.seen_unsafe) beq))) state.now.state other.now.state }
{
    state.system().rows() == other.system().rows()
        && state.loc() == other.loc()
        && state.seen_unsafe() == other.seen_unsafe()
}

/// Whether they are equal one by one.
fn are_alike(states: &[State], others: &[State]) -> bool
    ensures { result ≡ pointwise (eq_of_both (on (λ s. s.rows) (pointwise ⟦<Row as PartialEq>⟧.eq)) (eq_of_both (on (λ s. s.loc) ◌==◌) (on (λ s. s.seen_unsafe) beq))) (states_of states.now) (states_of others.now) }
{
    if states.len() != others.len() {
        return false;
    }
    for i in 0..states.len() {
        if !is_alike(&states[i], &others[i]) {
            return false;
        }
    }
    true
}

impl PartialEq for Key {
    ghost eq = { eq_of_both (on (λ k. k.automaton) ⟦<Automaton as PartialEq>⟧.eq) (eq_of_both (on (λ k. k.jumps) ◌==◌) (eq_of_both (on (λ k. k.gap) ⟦<Frac as PartialEq>⟧.eq)
        (eq_of_both (on (λ k. k.seen) (pointwise (option_eq ⟦<Frac as PartialEq>⟧.eq))) (on (λ k. k.belief) (pointwise (eq_of_both (on (λ s. s.rows) (pointwise ⟦<Row as PartialEq>⟧.eq)) (eq_of_both (on (λ s. s.loc) ◌==◌) (on (λ s. s.seen_unsafe) beq)))))))) };

    ghost laws = { Prim.search (comparing, rules, automaton_equal, fraction_equal, row_equal) depth 12 };

    fn eq(&self, other: &Key) -> bool {
        same_automaton(self.automaton(), other.automaton())
            && self.jumps() == other.jumps()
            && self.gap() == other.gap()
            && self.seen() == other.seen()
            && are_alike(self.belief().states(), other.belief().states())
    }
}

impl Eq for Key {
    ghost laws = { Prim.search (comparing, rules, automaton_equal, fraction_equal, row_equal) depth 12 };
}

impl Hash for Key {
    ghost hash_input = { λ k. fed.u8 k.jumps ++ ⟦<Frac as Hash>⟧.hash_input k.gap ++ fed.slice (fed.option ⟦<Frac as Hash>⟧.hash_input) k.seen ++ fed.slice (λ s. fed.u8 s.loc ++ fed.bool s.seen_unsafe) k.belief };

    ghost respects_eq = { (and-Alike {F = λ _. []} (record { fed = λ x y e. refl }) (and-Alike (on_Alike (λ k. k.jumps) (same_Alike fed.u8 Decides-eqb))
        (and-Alike (on_Alike (λ k. k.gap) {E = ⟦<Frac as PartialEq>⟧.eq} {F = ⟦<Frac as Hash>⟧.hash_input} (record { fed = fraction_alike }))
        (and-Alike (on_Alike (λ k. k.seen) (items_Alike (options_Alike {E = ⟦<Frac as PartialEq>⟧.eq} {F = ⟦<Frac as Hash>⟧.hash_input} (record { fed = fraction_alike }))))
        (on_Alike (λ k. k.belief) (items_Alike {E = (eq_of_both (on (λ s. s.rows) (pointwise ⟦<Row as PartialEq>⟧.eq)) (eq_of_both (on (λ s. s.loc) ◌==◌) (on (λ s. s.seen_unsafe) beq)))} {F = λ s. fed.u8 s.loc ++ fed.bool s.seen_unsafe} (and-Alike {F = λ _. []} (record { fed = λ x y e. refl }) (and-Alike (on_Alike (λ s. s.loc) (same_Alike fed.u8 Decides-eqb)) (on_Alike (λ s. s.seen_unsafe) (same_Alike fed.bool booleans_Decides)))))))))).fed };

    fn hash<H: Hasher>(&self, state: &mut H) {
        self.jumps().hash(state);
        self.gap().hash(state);
        self.seen().hash(state);
        self.belief().states().hash(state);
    }
}
