//! What is printed is read back.

ghost use Rattle.std.specs.Prelude.{ℕ, List};
ghost use Rattle.lang_specs.specs.Trees.{Tree};
ghost use Rattle.lang_specs.specs.FirstFault.{IsSpelling};
ghost use Rattle.lang_specs.specs.Canonical.{canonical_text};
ghost use Rattle.lang_specs.specs.SameTrees.{SameTrees};

/// The canonical text of trees that a text spells, spells the same trees but for their lines.
pub fn canonical_texts_are_read_back()
    ensures { (text : List ℕ) (trees : List Tree) → IsSpelling text trees → (others : List Tree) × IsSpelling (canonical_text trees) others × SameTrees trees others }
{}
