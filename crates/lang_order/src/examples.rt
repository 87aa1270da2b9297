//! Texts whose lines stand in no order.

ghost use Rattle.std.specs.Prelude.{codes};
ghost use Rattle.lang_specs.specs.FirstFault.{SyntaxAt, IsFirstFault};

/// An `also` before the `flow` of its location.
pub fn an_early_also()
    ensures { IsFirstFault (codes "lha 1\nautomaton A\nvar x\nloc a\nalso true") (SyntaxAt 5 1) }
{}

/// A text that ends inside an automaton.
pub fn an_early_end()
    ensures { IsFirstFault (codes "lha 1\nautomaton A\nvar x") (SyntaxAt 4 1) }
{}

/// An `obs` in the first version.
pub fn an_early_obs()
    ensures { IsFirstFault (codes "lha 1\nautomaton A\nvar x\nobs") (SyntaxAt 4 1) }
{}
