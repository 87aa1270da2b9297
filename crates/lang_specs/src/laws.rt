//! What holds of words, first faults, spellings and canonical texts.

ghost use Rattle.std.specs.Prelude.{◌≡◌, ◌↔◌, ℕ, false, List, ◌++◌, bytes_eq};
ghost use Rattle.std.specs.List.{list_any};
ghost use Rattle.run_specs.specs.Names.{keywords};
ghost use Rattle.lang_specs.specs.declared.Kind.TheVariants.{Name};
ghost use Rattle.lang_specs.specs.Words.{word_kind};
ghost use Rattle.lang_specs.specs.Marks.{Lined};
ghost use Rattle.lang_specs.specs.Trees.{Tree};
ghost use Rattle.lang_specs.specs.FirstFault.{IsSpelling, IsViable, Fault, IsFirstFault};
ghost use Rattle.lang_specs.specs.Canonical.{canonical_text};
ghost use Rattle.lang_specs.specs.SameTrees.{SameTrees};

/// A word is a name exactly where it is none of the words that no name may be.
pub fn names_are_no_keywords()
    ensures { (word : List ℕ) → (word_kind word ≡ Name) ↔ (list_any (bytes_eq word) keywords ≡ false) }
{}

/// Tokens that can go on to a text of models begin with such tokens only.
pub fn beginnings_are_viable()
    ensures { (front rest : List Lined) → IsViable (front ++ rest) → IsViable front }
{}

/// A text has at most one first fault.
pub fn one_first_fault()
    ensures { (text : List ℕ) (f g : Fault) → IsFirstFault text f → IsFirstFault text g → f ≡ g }
{}

/// A text that spells trees has no first fault.
pub fn no_fault_beside_a_spelling()
    ensures { (text : List ℕ) (trees : List Tree) (f : Fault) → IsSpelling text trees → IsFirstFault text f → ⊥ }
{}

/// A text spells at most one list of trees.
pub fn one_spelling()
    ensures { (text : List ℕ) (trees others : List Tree) → IsSpelling text trees → IsSpelling text others → trees ≡ others }
{}

/// Trees that are the same but for their lines have the same canonical text.
pub fn one_canonical_text()
    ensures { (trees others : List Tree) → SameTrees trees others → canonical_text trees ≡ canonical_text others }
{}
