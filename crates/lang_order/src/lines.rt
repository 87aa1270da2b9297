//! What is wrong behind each word whose line is a name or a list: what is wrong with the name or the list.

ghost use Rattle.std.specs.Prelude.{Bool, false, IsTrue, List};
ghost use Rattle.lang_specs.specs.declared.Kind.TheVariants as kinds;
ghost use Rattle.lang_specs.specs.Tokens.{Placed};
ghost use Rattle.lang_specs.specs.FirstFault.{Fault};
ghost use Rattle.lang_specs.specs.Expressions.{AreJoined, IsName, AreRows, IsBox, IsBound};
ghost use Rattle.lang_order.specs.Statements.{Automaton, Vars, Obs, Init, Inv, Flow, Also};
ghost use Rattle.lang_order.specs.Bodies.{IsBodyBehind, BodyKeeps, KeepsAs, IsFaultSo};

/// Behind `automaton` stands a name.
pub fn lines_of_automata()
    ensures { (second : Bool) (ts : List Placed) (fault : Fault) →
        IsFaultSo IsName (KeepsAs Automaton) ts fault → IsFaultSo (IsBodyBehind second kinds.Automaton) BodyKeeps ts fault }
{}

/// Behind `var` stand names.
pub fn lines_of_variables()
    ensures { (second : Bool) (ts : List Placed) (fault : Fault) →
        IsFaultSo (AreJoined IsName) (KeepsAs Vars) ts fault → IsFaultSo (IsBodyBehind second kinds.Var) BodyKeeps ts fault }
{}

/// In the second version bounds stand behind `obs`.
pub fn lines_of_bounds()
    ensures { (second : Bool) → IsTrue second → (ts : List Placed) (fault : Fault) →
        IsFaultSo (AreJoined IsBound) (KeepsAs Obs) ts fault → IsFaultSo (IsBodyBehind second kinds.Obs) BodyKeeps ts fault }
{}

/// Behind `init` stand constraints, in the second version strict ones too.
pub fn lines_of_starts()
    ensures { (second : Bool) (ts : List Placed) (fault : Fault) →
        IsFaultSo (AreRows second) (KeepsAs Init) ts fault → IsFaultSo (IsBodyBehind second kinds.Init) BodyKeeps ts fault }
{}

/// Behind `inv` stand constraints, in the second version strict ones too.
pub fn lines_of_invariants()
    ensures { (second : Bool) (ts : List Placed) (fault : Fault) →
        IsFaultSo (AreRows second) (KeepsAs Inv) ts fault → IsFaultSo (IsBodyBehind second kinds.Inv) BodyKeeps ts fault }
{}

/// Behind `flow` stand boxes.
pub fn lines_of_boxes()
    ensures { (second : Bool) (ts : List Placed) (fault : Fault) →
        IsFaultSo (AreJoined IsBox) (KeepsAs Flow) ts fault → IsFaultSo (IsBodyBehind second kinds.Flow) BodyKeeps ts fault }
{}

/// Behind `also` stand constraints that are not strict.
pub fn lines_of_slopes()
    ensures { (second : Bool) (ts : List Placed) (fault : Fault) →
        IsFaultSo (AreRows false) (KeepsAs Also) ts fault → IsFaultSo (IsBodyBehind second kinds.Also) BodyKeeps ts fault }
{}
