//! What the word that a line begins with decides.

ghost use Rattle.std.specs.Prelude.{◌≡◌, ◌↔◌, ℕ, Bool, false, IsTrue, List, [], ◌∷◌, Some, None};
ghost use Rattle.lang_specs.specs.declared.Which.{Which};
ghost use Rattle.lang_specs.specs.declared.Kind.{Kind};
ghost use Rattle.lang_specs.specs.declared.Kind.TheVariants.{Obs};
ghost use Rattle.lang_specs.specs.Tokens.{Placed};
ghost use Rattle.lang_specs.specs.Marks.{Mark, mark, the};
ghost use Rattle.lang_specs.specs.FirstFault.{Fault, SyntaxAt, LimitAt, IsFirstFault};
ghost use Rattle.lang_order.specs.declared.Place.{Place};
ghost use Rattle.lang_order.specs.Statements.{Numbered, is_second};
ghost use Rattle.lang_order.specs.Order.{next};
ghost use Rattle.lang_order.specs.LineLimits.{Counts, none_yet, count, counts_from, are_few};
ghost use Rattle.lang_order.specs.Beginnings.{IsViableLine, EndsText, MayFollow, LineHasKept};
ghost use Rattle.lang_order.specs.FaultsByLines.{IsReadTo};
ghost use Rattle.lang_order.specs.Bodies.{IsBodyBehind, BodyKeeps, HasKeptSo, IsFaultSo};

/// Where the order allows a word, a line that begins with it can go on exactly where what stands behind the word can.
pub fn lines_behind_words()
    ensures { (second : Bool) (p q : Place) (word : Kind) → next p word ≡ Some q → (ms : List Mark) →
        MayFollow second p (the word ∷ ms) ↔ IsViableLine (IsBodyBehind second word) ms }
{}

/// Such a line has not passed a limit exactly where the word is not one too many, and what stands behind it has not passed the limit.
pub fn limits_behind_words()
    ensures { (second : Bool) (p q : Place) (word : Kind) → next p word ≡ Some q → (which : Which) (c : Counts) (ms : List Mark) →
        LineHasKept which second p c (the word ∷ ms)
        ↔ IsTrue (are_few which (count c word)) × HasKeptSo (IsBodyBehind second word) (BodyKeeps which) ms }
{}

/// The first token of a line that the order does not allow, and that does not end the text there, is the first fault.
pub fn faults_of_order()
    ensures { (text : List ℕ) (says : List Numbered) (place : Place) (word : Placed) (line : List Placed) → IsReadTo text says place word line →
        next place word.kind ≡ None → (EndsText place (mark word ∷ []) → ⊥) → IsFirstFault text (SyntaxAt word.line word.column) }
{}

/// In the first version an `obs` is the first fault, wherever it begins a line.
pub fn faults_of_version()
    ensures { (text : List ℕ) (says : List Numbered) (place : Place) (word : Placed) (line : List Placed) → IsReadTo text says place word line →
        is_second says ≡ false → word.kind ≡ Obs → IsFirstFault text (SyntaxAt word.line word.column) }
{}

/// An automaton, a location or a transition that is one too many is the first fault, at its first token.
pub fn faults_of_counts()
    ensures { (text : List ℕ) (says : List Numbered) (place q : Place) (word : Placed) (line : List Placed) (which : Which) →
        IsReadTo text says place word line → next place word.kind ≡ Some q →
        are_few which (count (counts_from none_yet says) word.kind) ≡ false → IsFirstFault text (LimitAt word.line which) }
{}

/// Where the order allows the word, and it is not one too many, what is wrong behind it in its line is the first fault.
pub fn faults_behind_words()
    ensures { (text : List ℕ) (says : List Numbered) (place q : Place) (word : Placed) (line : List Placed) (fault : Fault) →
        IsReadTo text says place word line → next place word.kind ≡ Some q →
        ((which : Which) → IsTrue (are_few which (count (counts_from none_yet says) word.kind))) →
        IsFaultSo (IsBodyBehind (is_second says) word.kind) BodyKeeps line fault → IsFirstFault text fault }
{}
