//! Each key has an exact outcome.

ghost use Rattle.std.specs.Prelude.{List};
ghost use Rattle.run_specs.specs.WellFormed.{IsWellFormed};
ghost use Rattle.run_specs.specs.Keys.{Key, IsKey};
ghost use Rattle.run_specs.specs.Outcomes.{Item, Next, IsExact};

/// Each key has exact items, whatever numbers pass.
pub fn some_exact_outcome()
    ensures { (key : Key) → IsWellFormed key.automaton → IsKey key → (items : List Item) × IsExact key (Next items) }
{}
