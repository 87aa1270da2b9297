//! Equal systems: the same width, and the same rows in the same order.

ghost use Rattle.std.specs.Prelude.{◌==◌, ◌++◌};
ghost use Rattle.std.proofs.Common.{rules};
ghost use lib.Pointwise.{pointwise};
ghost use Rattle.std.specs.Cmp.Rules.{comparing};
ghost use Rattle.std.specs.Hash as fed;
ghost use Rattle.std.specs.Hash.{and-Alike, on_Alike, same_Alike, items_Alike};
ghost use Rattle.std.proofs.lemmas.Bool.Decides.{Decides-eqb};
ghost use Rattle.lin_row.specs.contracts.RowHash.TheImpl.Laws.{respects_eq-law as row_alike};
ghost use Rattle.lin_row.specs.contracts.RowEq.TheImpl.Laws.{laws-law as row_equal};
ghost use Rattle.std.specs.Ordering.{on, eq_of_both};

use crate::System;
use lin_row::Row;
use std::hash::{Hash, Hasher};

impl PartialEq for System {
    ghost eq = { eq_of_both (on (λ s. s.width) ◌==◌) (on (λ s. s.rows) (pointwise ⟦<Row as PartialEq>⟧.eq)) };

    ghost laws = { Prim.search (comparing, rules, row_equal) };

    fn eq(&self, other: &System) -> bool {
        self.width == other.width && self.rows == other.rows
    }
}

impl Eq for System {
    ghost laws = { Prim.search (comparing, rules, row_equal) };
}

impl Hash for System {
    ghost hash_input = { λ s. fed.usize s.width ++ fed.slice ⟦<Row as Hash>⟧.hash_input s.rows };

    ghost respects_eq = { (and-Alike (on_Alike (λ s. s.width) (same_Alike fed.usize Decides-eqb)) (on_Alike (λ s. s.rows) (items_Alike {E = ⟦<Row as PartialEq>⟧.eq} {F = ⟦<Row as Hash>⟧.hash_input} (record { fed = row_alike })))).fed };

    fn hash<H: Hasher>(&self, state: &mut H) {
        self.width.hash(state);
        self.rows.hash(state);
    }
}
