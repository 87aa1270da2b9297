//! What holds of texts, line by line.

ghost use Rattle.std.specs.Prelude.{◌≡◌, ◌↔◌, ℕ, List, ◌++◌};
ghost use Rattle.lang_specs.specs.Marks.{Mark, Lined, lined};
ghost use Rattle.lang_specs.specs.Trees.{Tree};
ghost use Rattle.lang_specs.specs.Grammar.{Spell};
ghost use Rattle.lang_specs.specs.declared.Which.{Which};
ghost use Rattle.lang_specs.specs.Lines.{text_tokens};
ghost use Rattle.lang_specs.specs.FirstFault.{IsSpelling, IsViable, HasKept, Fault, IsFirstFault};
ghost use Rattle.lang_order.specs.declared.Place.{Place};
ghost use Rattle.lang_order.specs.declared.Place.TheVariants as places;
ghost use Rattle.lang_order.specs.Statements.{Numbered, is_second};
ghost use Rattle.lang_order.specs.Building.{trees_of};
ghost use Rattle.lang_order.specs.ByLines.{AreWholeLines, text_end, SpellByLines};
ghost use Rattle.lang_order.specs.LineLimits.{none_yet, counts_from, AreWholeLinesWithin};
ghost use Rattle.lang_order.specs.Beginnings.{in_line, IsOneLine, MayFollow, LineHasKept};
ghost use Rattle.lang_order.specs.FaultsByLines.{AreReadLines, IsFaultByLines};

/// A text spells trees exactly where it is a list of lines in order, each of which says a statement, and the statements build the trees.
pub fn texts_are_lines()
    ensures { (ls : List Lined) (trees : List Tree) → Spell ls trees ↔ SpellByLines ls trees }
{}

/// Whole lines in order and some tokens of the next can go on to a text exactly where the order allows such a line there, and the tokens can go on to it.
pub fn beginnings_by_lines()
    ensures { (ls : List Lined) (ss : List Numbered) (p : Place) → AreWholeLines ls ss p → (line : ℕ) (ms : List Mark) → IsOneLine ms →
        IsViable (ls ++ in_line line ms) ↔ MayFollow (is_second ss) p ms }
{}

/// Behind whole lines that keep to a limit, some tokens of the next line have not passed it exactly where the line can keep to it and is not one too many, or they end with a sign that joins a next item to such tokens.
pub fn limits_by_lines()
    ensures { (which : Which) (ls : List Lined) (ss : List Numbered) (p : Place) → AreWholeLinesWithin which ls ss p →
        (line : ℕ) (ms : List Mark) → IsOneLine ms →
        HasKept which (ls ++ in_line line ms) ↔ LineHasKept which (is_second ss) p (counts_from none_yet ss) ms }
{}

/// What is wrong in the line behind lines that were read is the first fault of the text.
pub fn faults_by_lines()
    ensures { (text : List ℕ) (fault : Fault) → IsFaultByLines text fault → IsFirstFault text fault }
{}

/// Where all lines were read, the last is an `end`, and the text ends, it spells the trees that the lines build.
pub fn spellings_by_lines()
    ensures { (text : List ℕ) (ls : List Lined) (ss : List Numbered) (last : ℕ) → AreReadLines ls ss places.End →
        lined (text_tokens text) ≡ ls ++ text_end last → IsSpelling text (trees_of ss) }
{}

/// No text is without a spelling within all limits and also without a first fault.
pub fn each_text_has_an_end()
    ensures { (text : List ℕ) → ((trees : List Tree) → IsSpelling text trees → ⊥) → ((fault : Fault) → IsFirstFault text fault → ⊥) → ⊥ }
{}
