//! Systems of rows, and what is left of them without a column: Fourier-Motzkin elimination.
#![tactic(auto)]

mod by_level;
mod coefficients;
mod elimination;
mod equality;
mod holding;
mod kept_rows;
mod moves;
mod pivots;
mod places;
mod systems;

use lin_row::{Passes, Row};
use std::alloc::AllocError;
use std::marker::Model;

/// Why a call on systems has no answer.
#[derive(Clone, Copy, Debug, PartialEq, Eq, Drop)]
pub enum RowFault {
    /// A number passed 128 bits.
    Passes,
    /// There was no memory.
    Memory,
}

/// Rows over so many columns, at most 14. It holds at a point where each of its rows does.
#[derive(Debug, Drop)]
pub struct System {
    width: usize,
    rows: Vec<Row>,
}

impl Model for System {
    ghost use Rattle.poly_specs.specs.Systems.{System as SystemValue, IsKeptSystem};

    ghost Value = { SystemValue };

    ghost view = { λ s. record { width = s.width; rows = s.rows.items } };

    ghost invariant = { λ s. IsKeptSystem (record { width = s.width; rows = s.rows.items }) };
}

/// What is left of a system in its first columns, one column more at a time.
#[derive(Debug, Drop)]
pub struct Levels {
    first: usize,
    systems: Vec<System>,
}

impl Model for Levels {
    ghost use Rattle.std.specs.Prelude.{All};
    ghost use Rattle.poly_specs.specs.Systems.{Levels as LevelsValue, IsKeptSystem};

    ghost Value = { LevelsValue };

    ghost view = { λ l. record { first = l.first; systems = l.systems.items } };

    ghost invariant = { λ l. All IsKeptSystem l.systems.items };
}

impl From<AllocError> for RowFault {
    ghost use Rattle.std.specs.Prelude.{◌≡◌};
    ghost use Rattle.fm_eliminate.specs.declared.RowFault.{RowFault};

    ghost from_gives = { λ _ e. e ≡ RowFault.Memory };

    fn from(_e: AllocError) -> RowFault {
        RowFault::Memory
    }
}

impl From<Passes> for RowFault {
    ghost use Rattle.std.specs.Prelude.{◌≡◌};
    ghost use Rattle.fm_eliminate.specs.declared.RowFault.{RowFault};

    ghost from_gives = { λ _ e. e ≡ RowFault.Passes };

    fn from(_e: Passes) -> RowFault {
        RowFault::Passes
    }
}
