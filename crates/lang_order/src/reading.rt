//! Reading a text a line at a time.

ghost use Rattle.std.specs.Prelude.{◌≡◌, ℕ, IsTrue, List, [], ◌∷◌, ◌++◌, Some};
ghost use Rattle.lang_specs.specs.declared.Which.{Which};
ghost use Rattle.lang_specs.specs.Tokens.{line_tokens};
ghost use Rattle.lang_specs.specs.Marks.{Lined};
ghost use Rattle.lang_order.specs.declared.Place.{Place};
ghost use Rattle.lang_order.specs.declared.Place.TheVariants as places;
ghost use Rattle.lang_order.specs.Statements.{first_word, Numbered, second_if, is_second};
ghost use Rattle.lang_order.specs.Order.{next, Leads};
ghost use Rattle.lang_order.specs.Building.{trees_of};
ghost use Rattle.lang_order.specs.Adding.{add};
ghost use Rattle.lang_order.specs.LineLimits.{none_yet, count, counts_from, are_few};
ghost use Rattle.lang_order.specs.Beginnings.{IsOneLine};
ghost use Rattle.lang_order.specs.FaultsByLines.{IsReadLine, AreReadLines, marks, StandIn};

/// The tokens of a line stand in it, and its end is the last of them.
pub fn tokens_stand_in_their_line()
    ensures { (line : ℕ) (bytes : List ℕ) → StandIn line (line_tokens line bytes) × IsOneLine (marks (line_tokens line bytes)) }
{}

/// One more line adds to the last automaton, or to its last location.
pub fn one_more_line_adds()
    ensures { (ss : List Numbered) (p q : Place) (s : Numbered) → Leads places.Start ss p → next p (first_word s.says) ≡ Some q →
        trees_of (ss ++ s ∷ []) ≡ add s.line s.says (trees_of ss) }
{}

/// Before the first line nothing was read.
pub fn nothing_is_read()
    ensures { AreReadLines [] [] places.Start }
{}

/// A first line that may stand there is read, by the version that it tells.
pub fn a_first_line_is_read()
    ensures { (line : List Lined) (s : Numbered) (q : Place) → IsReadLine (second_if s.says) line s → next places.Start (first_word s.says) ≡ Some q →
        AreReadLines line (s ∷ []) q }
{}

/// Behind lines that were read, one more that may stand there, and is not one too many, is read by the same version.
pub fn one_more_line_is_read()
    ensures { (ls : List Lined) (ss : List Numbered) (p q : Place) (line : List Lined) (s : Numbered) → AreReadLines ls ss p → (p ≡ places.Start → ⊥) →
        IsReadLine (is_second ss) line s → next p (first_word s.says) ≡ Some q →
        ((which : Which) → IsTrue (are_few which (count (counts_from none_yet ss) (first_word s.says)))) →
        AreReadLines (ls ++ line) (ss ++ s ∷ []) q × (is_second (ss ++ s ∷ []) ≡ is_second ss)
        × (counts_from none_yet (ss ++ s ∷ []) ≡ count (counts_from none_yet ss) (first_word s.says)) }
{}
