//! Trees whose automata and faults compute.

ghost use Rattle.std.specs.Prelude.{◌≡◌, [], ◌∷◌, ◌++◌, take, drop, pos, negsuc, true, Some, None, codes};
ghost use Rattle.poly_specs.specs.Fractions.{zero_fraction};
ghost use Rattle.lang_specs.specs.declared.Sign.TheVariants.{AtMost, AtLeast, Greater};
ghost use Rattle.lang_specs.specs.Trees.{Set, Within, Free};
ghost use Rattle.lang_specs.specs.Examples.{x, y, fraction, whole, number, times, variable, less_term, box};
ghost use Rattle.model_specs.specs.Automata.{tolerances, constraint_rows, init_rows, invariant_rows, also_rows, automata_of};
ghost use Rattle.model_specs.specs.Faults.{UnknownName, RepeatedName, MissingSlope, EmptyBox, Passes, faults_of};
ghost use Rattle.model_specs.specs.Examples.{compared, standing, row, minus_one, ok, high, up, model, model_automaton, bounded, located, boxed, kept_in, jumping, acting, primes, inverses, act_rows};

/// The model T has no fault, and its automaton is the one that is written out.
pub fn a_model()
    ensures { (faults_of (model ∷ []) ≡ []) × (automata_of (model ∷ []) ≡ model_automaton ∷ []) }
{}

/// A tolerance is that of its variable; a variable without one has 0.
pub fn some_tolerances()
    ensures { (tolerances (bounded (x ∷ [])) ≡ fraction (pos 1) 2 ∷ []) × (tolerances (record (bounded (x ∷ [])) { vars = y ∷ x ∷ [] }) ≡ zero_fraction ∷ fraction (pos 1) 2 ∷ []) }
{}

/// The numbers of a variable are added, all are written without denominators, and a strict sign gives a strict row.
pub fn some_rows()
    ensures { (constraint_rows (x ∷ []) 1 (compared (times (whole 2) x ∷ number (fraction (pos 1) 2) ∷ []) AtMost (variable x ∷ less_term (number (fraction (pos 1) 3)) ∷ []) ∷ [])
        ≡ row (pos 6 ∷ []) (pos 5) ∷ [])
        × (constraint_rows (x ∷ []) 1 (compared (variable x ∷ []) Greater (number (whole 1) ∷ []) ∷ []) ≡ record (row (minus_one ∷ []) (pos 1)) { strict = true } ∷ []) }
{}

/// In `also` a name stands for the slope of its variable, and a constant for so much of each unit of time.
pub fn a_row_of_slopes()
    ensures { also_rows (x ∷ y ∷ []) (standing 1 (compared (variable x ∷ variable y ∷ []) AtMost (number (whole 1) ∷ []) ∷ [])) ≡ row (pos 1 ∷ pos 1 ∷ minus_one ∷ []) (pos 0) ∷ [] }
{}

/// `set x = 2*x`; `x in [0, y]`, which keeps `y`; `free x`, which keeps `y`.
pub fn some_acts()
    ensures { (act_rows (x ∷ []) (Set x (times (whole 2) x ∷ []) ∷ []) ≡ row (negsuc 1 ∷ pos 1 ∷ []) (pos 0) ∷ row (pos 2 ∷ minus_one ∷ []) (pos 0) ∷ [])
        × (act_rows (x ∷ y ∷ []) (Within x (number (whole 0) ∷ []) (variable y ∷ []) ∷ [])
        ≡ row (pos 0 ∷ pos 0 ∷ minus_one ∷ pos 0 ∷ []) (pos 0) ∷ row (pos 0 ∷ minus_one ∷ pos 1 ∷ pos 0 ∷ []) (pos 0)
        ∷ row (pos 0 ∷ minus_one ∷ pos 0 ∷ pos 1 ∷ []) (pos 0) ∷ row (pos 0 ∷ pos 1 ∷ pos 0 ∷ minus_one ∷ []) (pos 0) ∷ [])
        × (act_rows (x ∷ y ∷ []) (Free x ∷ []) ≡ row (pos 0 ∷ minus_one ∷ pos 0 ∷ pos 1 ∷ []) (pos 0) ∷ row (pos 0 ∷ pos 1 ∷ pos 0 ∷ minus_one ∷ []) (pos 0) ∷ []) }
{}

/// A location or a variable that is not there is told at its line, and the leftmost name of a line first.
pub fn unknown_names()
    ensures { (faults_of (jumping (record up { to = codes "low" }) ∷ []) ≡ UnknownName 11 (codes "low") ∷ [])
        × (faults_of (jumping (record up { from = codes "off"; to = codes "low"; guard = compared (variable y ∷ []) AtMost (number (whole 1) ∷ []) ∷ [] }) ∷ [])
        ≡ UnknownName 11 (codes "off") ∷ UnknownName 11 (codes "low") ∷ UnknownName 11 y ∷ []) }
{}

/// A name is told where it stands for the second time: of an automaton, a variable, a location, a box or an act. A name that is unknown and repeated is unknown first.
pub fn repeated_names()
    ensures { (faults_of (model ∷ record model { line = 14 } ∷ []) ≡ RepeatedName 14 (codes "T") ∷ [])
        × (faults_of (record model { vars = x ∷ x ∷ [] } ∷ []) ≡ RepeatedName 3 x ∷ [])
        × (faults_of (located (ok ∷ high ∷ record ok { line = 11; init = None; inv = None } ∷ []) ∷ []) ≡ RepeatedName 11 (codes "ok") ∷ [])
        × (faults_of (boxed (box x (whole 0) (whole 1) ∷ box y (whole 0) (whole 1) ∷ box y (whole 0) (whole 1) ∷ []) ∷ [])
        ≡ UnknownName 7 y ∷ UnknownName 7 y ∷ RepeatedName 7 y ∷ [])
        × (faults_of (acting (Free x ∷ Set x (variable y ∷ []) ∷ []) ∷ []) ≡ RepeatedName 11 x ∷ UnknownName 11 y ∷ []) }
{}

/// A box from 2 to 1 is empty, and one from 2 to 2 is not.
pub fn empty_boxes()
    ensures { (faults_of (boxed (box x (whole 2) (whole 1) ∷ []) ∷ []) ≡ EmptyBox 7 x ∷ []) × (faults_of (boxed (box x (whole 2) (whole 2) ∷ []) ∷ []) ≡ []) }
{}

/// The first variable without a box stands at the line of the location, before a fault of its `init`.
pub fn a_missing_slope()
    ensures { (faults_of (located (record ok { init = standing 5 (compared (variable y ∷ []) AtMost (number (whole 1) ∷ []) ∷ []); flow = record { line = 7; boxes = [] } } ∷ []) ∷ [])
        ≡ MissingSlope 4 x ∷ UnknownName 5 y ∷ [])
        × (faults_of (record (located (ok ∷ [])) { vars = x ∷ y ∷ [] } ∷ []) ≡ MissingSlope 4 y ∷ []) }
{}

/// A bound of `obs` is of a variable, and each variable has at most one.
pub fn wrong_bounds()
    ensures { faults_of (bounded (x ∷ y ∷ x ∷ []) ∷ []) ≡ UnknownName 3 y ∷ RepeatedName 3 x ∷ [] }
{}

/// Without `init` no run starts in a location, with `init true` one may start anywhere; without `inv` a run may stay anywhere.
pub fn statements_left_out()
    ensures { (init_rows (x ∷ []) None ≡ None) × (init_rows (x ∷ []) (standing 5 []) ≡ Some []) × (invariant_rows (x ∷ []) None ≡ []) }
{}

/// The sum of fourteen fractions with large denominators that share no factor passes; that is told with the automaton's name, behind the unknown names of its line.
pub fn numbers_that_pass()
    ensures { (faults_of (kept_in (compared (inverses primes) AtMost (variable x ∷ []) ∷ []) ∷ []) ≡ Passes 6 (codes "T") ∷ [])
        × (faults_of (kept_in (compared (inverses primes) AtMost (variable y ∷ []) ∷ []) ∷ []) ≡ UnknownName 6 y ∷ Passes 6 (codes "T") ∷ []) }
{}

/// Numbers are added in the order of the text, whatever the sign between them: where 1/p + 1/q + 1/r + 1/s >= 1/s + 1/t + x, with five large primes, the
/// fourth fraction goes before the fifth comes; where the sides are exchanged, five denominators meet.
pub fn sums_in_order()
    ensures { (faults_of (kept_in (compared (inverses (take 4 primes)) AtLeast (inverses (take 2 (drop 3 primes)) ++ variable x ∷ []) ∷ []) ∷ []) ≡ [])
        × (faults_of (kept_in (compared (inverses (take 2 (drop 3 primes)) ++ variable x ∷ []) AtLeast (inverses (take 4 primes)) ∷ []) ∷ []) ≡ Passes 6 (codes "T") ∷ [])
        × (faults_of (kept_in (compared (inverses (take 2 (drop 3 primes)) ++ variable x ∷ []) AtMost (inverses (take 4 primes)) ∷ []) ∷ []) ≡ Passes 6 (codes "T") ∷ []) }
{}
