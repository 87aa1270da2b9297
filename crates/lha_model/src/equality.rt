//! Two names, automata or logs are equal exactly where their records are.

ghost use Rattle.std.specs.Prelude.{◌≡◌, ◌↔◌, ℕ, List, IsTrue};
ghost use Rattle.run_specs.specs.Automaton as automata;
ghost use Rattle.run_specs.specs.Logs as logs;

use crate::{Automaton, Loc, Log, Name, Sample, Trans};

/// Names are equal exactly where their bytes are.
pub fn equal_names()
    ensures { (x y : List ℕ) → IsTrue (⟦<Name as PartialEq>⟧.eq x y) ↔ (x ≡ y) }
{}

/// Locations are equal exactly where their records are.
pub fn equal_locations()
    ensures { (x y : automata.Location) → IsTrue (⟦<Loc as PartialEq>⟧.eq x y) ↔ (x ≡ y) }
{}

/// Transitions are equal exactly where their records are.
pub fn equal_transitions()
    ensures { (x y : automata.Transition) → IsTrue (⟦<Trans as PartialEq>⟧.eq x y) ↔ (x ≡ y) }
{}

/// Automata are equal exactly where their records are.
pub fn equal_automata()
    ensures { (x y : automata.Automaton) → IsTrue (⟦<Automaton as PartialEq>⟧.eq x y) ↔ (x ≡ y) }
{}

/// Samples are equal exactly where their records are.
pub fn equal_samples()
    ensures { (x y : logs.Sample) → IsTrue (⟦<Sample as PartialEq>⟧.eq x y) ↔ (x ≡ y) }
{}

/// Logs are equal exactly where their samples are.
pub fn equal_logs()
    ensures { (x y : List logs.Sample) → IsTrue (⟦<Log as PartialEq>⟧.eq x y) ↔ (x ≡ y) }
{}
