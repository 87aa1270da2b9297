//! What holds of the automata of trees, and of the faults of trees.

ghost use Rattle.std.specs.Prelude.{◌≡◌, ℕ, List, [], All};
ghost use Rattle.std.specs.List.Sorted.{IsNonDecreasingBy};
ghost use Rattle.run_specs.specs.WellFormed.{IsWellFormed};
ghost use Rattle.lang_specs.specs.Trees.{Tree};
ghost use Rattle.lang_specs.specs.FirstFault.{IsSpelling};
ghost use Rattle.model_specs.specs.Automata.{automata_of, HasOneOfEachName};
ghost use Rattle.model_specs.specs.Faults.{faults_of, line_of};

/// The automata of trees that a text spells and that have no fault are within their limits.
pub fn automata_are_well_formed()
    ensures { (text : List ℕ) (trees : List Tree) → IsSpelling text trees → faults_of trees ≡ [] → All IsWellFormed (automata_of trees) }
{}

/// Faults are told in the order of the text: their lines do not fall.
pub fn faults_rise()
    ensures { (text : List ℕ) (trees : List Tree) → IsSpelling text trees → IsNonDecreasingBy line_of (faults_of trees) }
{}

/// Where trees have no fault, no two automata have one name, and no two variables and no two locations of one automaton.
pub fn names_are_distinct()
    ensures { (trees : List Tree) → faults_of trees ≡ [] → HasOneOfEachName (automata_of trees) }
{}
