//! Keys: all that the states after a gap depend on.

ghost use Rattle.std.specs.Prelude.{◌≡◌, ◌↔◌, All, IfOk, IfSome, IsTrue, SomeIff};
ghost use Rattle.std.specs.Arc.{arc_value};
ghost use Rattle.poly_specs.specs.Fractions.{AtMost, zero_fraction};
ghost use Rattle.poly_specs.specs.LowestTerms.{IsLowest};
ghost use Rattle.run_specs.specs.Automaton.{width};
ghost use Rattle.run_specs.specs.Keys as keys;
ghost use Rattle.run_specs.specs.Keys.{IsKey, IsState};
ghost use Rattle.gap_keys.specs.States.{IsStateOf};
ghost use Rattle.gap_keys.specs.Views.{AreWide, states_of};

use crate::states::{Belief, State};
use frac128::Frac;
use lha_model::Automaton;
use std::alloc::{AllocError, Global};
use std::marker::Model;
use std::sync::Arc;

/// What the states after a gap depend on: the automaton, how many jumps a gap may have, the states
/// before the gap, its length, and what the sample after it observes of each variable.
///
/// The states are in locations of the automaton and have systems over its variables, the length is at
/// least 0, there are at most 6 jumps, and one place for each variable.
#[derive(Debug, Drop)]
pub struct Key {
    automaton: Arc<Automaton>,
    jumps: u8,
    belief: Belief,
    gap: Frac,
    seen: Vec<Option<Frac>>,
}

impl Model for Key {
    ghost use Rattle.std.specs.Arc.{arc_value};
    ghost use Rattle.run_specs.specs.Automaton.{width};
    ghost use Rattle.run_specs.specs.Keys.{Key as KeyValue, IsKey};
    ghost use Rattle.gap_keys.specs.Views.{AreWide, states_of};

    ghost Value = { KeyValue };

    ghost view = { λ k. record { automaton = arc_value k.automaton; jumps = k.jumps; belief = states_of k.belief; gap = k.gap; seen = k.seen.items } };

    ghost invariant = { λ k. IsKey (record { automaton = arc_value k.automaton; jumps = k.jumps; belief = states_of k.belief; gap = k.gap; seen = k.seen.items })
        × AreWide (width (arc_value k.automaton)) k.belief };
}

/// The most jumps in a gap.
const MOST_JUMPS: u8 = 6;

/// Whether it is a state of the automaton, with a system over its variables.
fn is_state(state: &State, a: &Automaton) -> bool
    ensures { IsTrue result ↔ IsStateOf a.now state.now }
{
    usize::from(state.loc()) < a.locs().len() && state.system().width() == a.vars().len()
}

/// Whether each is.
fn is_each_state(states: &[State], a: &Automaton) -> bool
    ensures { IsTrue result ↔ All (IsStateOf a.now) states.now }
{
    states.iter().all(|state| is_state(state, a))
}

/// Whether they are states of the automaton, and their systems are over its variables.
fn are_states(states: &[State], a: &Automaton) -> bool
    ensures { IsTrue result ↔ (All (IsState a.now) (states_of states.now) × AreWide (width a.now) states.now) }
{
    is_each_state(states, a)
}

/// Whether it is the length of a gap: at least 0.
fn is_gap(gap: &Frac) -> bool
    ensures { IsTrue result ↔ (IsLowest gap.now × AtMost zero_fraction gap.now) }
{
    gap.num() >= 0
}

/// Shows of what is observed that it is in lowest terms, which its type keeps and a reader tells.
fn show_cell(cell: &Option<Frac>)
    ensures { IfSome cell.now IsLowest }
{
    if let Some(value) = cell {
        let _ = value.num();
    }
}

/// Shows the same of each cell.
fn show_cells(cells: &[Option<Frac>])
    ensures { All (λ cell. IfSome cell IsLowest) cells.now }
{
    for cell in cells {
        show_cell(cell);
    }
}

/// Whether these parts are those of a key.
fn is_key(a: &Automaton, jumps: u8, belief: &Belief, gap: &Frac, seen: &[Option<Frac>]) -> bool
    ensures { IsTrue result ↔ (IsKey (record { automaton = a.now; jumps = jumps; belief = states_of belief.now; gap = gap.now; seen = seen.now }) × AreWide (width a.now) belief.now) }
{
    show_cells(seen);
    jumps <= MOST_JUMPS
        && are_states(belief.states(), a)
        && is_gap(gap)
        && seen.len() == a.vars().len()
}

impl Key {
    /// The key of these parts; `None` exactly where one of the kept facts fails. Takes no memory.
    pub fn make(
        automaton: Arc<Automaton>,
        jumps: u8,
        belief: Belief,
        gap: Frac,
        seen: Vec<Option<Frac>>,
    ) -> Option<Key>
        ensures { let k : keys.Key = record { automaton = arc_value automaton; jumps = jumps; belief = states_of belief; gap = gap; seen = seen.items } in
            SomeIff result (IsKey k × AreWide (width k.automaton) belief) k }
    {
        if !is_key(&automaton, jumps, &belief, &gap, seen.as_slice()) {
            return None;
        }
        Some(Key {
            automaton,
            jumps,
            belief,
            gap,
            seen,
        })
    }

    /// The automaton.
    pub fn automaton(&self) -> &Arc<Automaton>
        ensures value { arc_value result.now ≡ self.now.automaton }
        ensures kept { IsKey self.now }
    {
        &self.automaton
    }

    /// How many jumps the gap may have.
    pub fn jumps(&self) -> u8
        ensures value { result ≡ self.now.jumps }
        ensures kept { IsKey self.now }
    {
        self.jumps
    }

    /// The states before the gap. Their systems are over the automaton's variables.
    pub fn belief(&self) -> &Belief
        ensures value { states_of result.now ≡ self.now.belief }
        ensures wide { AreWide (width self.now.automaton) result.now }
        ensures kept { IsKey self.now }
    {
        &self.belief
    }

    /// The gap's length.
    pub fn gap(&self) -> &Frac
        ensures value { result.now ≡ self.now.gap }
        ensures kept { IsKey self.now }
    {
        &self.gap
    }

    /// What the sample after the gap observes of each variable; `None` is a blank.
    pub fn seen(&self) -> &[Option<Frac>]
        ensures value { result.now ≡ self.now.seen }
        ensures kept { IsKey self.now }
    {
        self.seen.as_slice()
    }

    /// The same key.
    pub fn copy(&self, alloc: Global) -> Result<Key, AllocError>
        ensures { IfOk result (λ k. k ≡ self.now) }
    {
        let automaton = Arc::try_clone(&self.automaton)?;
        let belief = self.belief.copy(alloc)?;
        let seen = copied(alloc, self.seen.as_slice())?;
        Ok(Key {
            automaton,
            jumps: self.jumps,
            belief,
            gap: self.gap,
            seen,
        })
    }
}

fn copied(alloc: Global, cells: &[Option<Frac>]) -> Result<Vec<Option<Frac>>, AllocError>
    ensures { IfOk result (λ v. v.items ≡ cells.now) }
{
    let mut copies = Vec::with_capacity(alloc, cells.len())?;
    for cell in cells {
        copies.push_reserved(*cell);
    }
    Ok(copies)
}
