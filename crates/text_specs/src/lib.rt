//! The definitions of what a model's text says: its automata, or what is wrong with it.
#![tactic(auto)]

ghost use Rattle.std.specs.Prelude.{◌≡◌, ℕ, List};
ghost use Rattle.run_specs.specs.Automaton.{Automaton};
ghost use Rattle.text_specs.specs.ModelTexts.{SaysAutomata, TextFault, HasFault};

/// A text says at most one list of automata.
pub fn one_list_of_automata()
    ensures { (text : List ℕ) (automata others : List Automaton) → SaysAutomata text automata → SaysAutomata text others → automata ≡ others }
{}

/// A text has at most one fault that is told.
pub fn one_fault()
    ensures { (text : List ℕ) (fault other : TextFault) → HasFault text fault → HasFault text other → fault ≡ other }
{}

/// A text that says automata has no fault.
pub fn no_fault_beside_automata()
    ensures { (text : List ℕ) (automata : List Automaton) (fault : TextFault) → SaysAutomata text automata → HasFault text fault → ⊥ }
{}
