//! The levels of a system: what is left in its first columns, one column fewer at a time.

ghost use Rattle.std.specs.Prelude.{◌≡◌, ◌+◌, ◌-◌, ◌<◌, ◌≤◌, ◌∷◌, [], ℕ, All, Err, IfOk, OnOk};
ghost use Rattle.poly_specs.specs.Bits.{SomePasses};
ghost use Rattle.poly_specs.specs.Elimination.{formed_each, columns_down};
ghost use Rattle.poly_specs.specs.Systems.{AreLevels, IsKeptSystem};

use crate::{Levels, RowFault, System};
use std::alloc::{AllocError, Global};

impl Levels {
    /// These systems as levels, of which the first is left with so many columns.
    pub fn of_systems(first: usize, systems: Vec<System>) -> Levels
        ensures value { result ≡ record { first = first; systems = systems.items } }
        ensures kept { All IsKeptSystem systems.items }
    {
        see_kept(systems.as_slice());
        Levels { first, systems }
    }

    /// The number of columns that the first system is left with.
    pub fn first(&self) -> usize
        ensures { result ≡ self.now.first }
    {
        self.first
    }

    /// What is left: number `i` has no coefficient from column `first + i` on, and the last is the
    /// whole system.
    pub fn systems(&self) -> &[System]
        ensures value { result.now ≡ self.now.systems }
        ensures kept { All IsKeptSystem self.now.systems }
    {
        self.systems.as_slice()
    }
}

impl System {
    /// The system without its last columns, step by step: what is left in the columns before
    /// `first`, before `first + 1` and so on, and at last the system itself. Each is what
    /// eliminating a column leaves of the next one. Errors are those of `eliminate`.
    pub fn levels(&self, alloc: Global, first: usize) -> Result<Levels, RowFault>
        requires { first ≤ self.now.width }
        ensures ok { IfOk result (λ l. AreLevels first self.now l) }
        ensures passes { result ≡ Err RowFault.Passes → SomePasses (formed_each (columns_down first (self.now.width - first)) self.now.rows) }
    {
        let width = self.width();
        let mut systems = self.alone(alloc)?;
        for done in 0..width - first {
            let x = width - 1 - done;
            self.add_level(alloc, &mut systems, x)?;
        }
        Ok(Levels::of_systems(first, systems))
    }

    /// A copy of the system, in a list of its own.
    fn alone(&self, alloc: Global) -> Result<Vec<System>, AllocError>
        ensures { IfOk result (λ v. v.items ≡ self.now ∷ []) }
    {
        let mut systems = Vec::new(alloc);
        systems.push(self.copy(alloc)?)?;
        Ok(systems)
    }

    /// Puts what is left of the first level without column `x` before the levels.
    fn add_level(&self, alloc: Global, systems: &mut Vec<System>, x: usize) -> Result<(), RowFault>
        requires within { x < self.now.width }
        requires levels { AreLevels (x + 1) self.now (record { first = x + 1; systems = systems.old.items }) }
        ensures ok { OnOk result (AreLevels x self.now (record { first = x; systems = systems.new.items })) }
        ensures passes { result ≡ Err RowFault.Passes → (first : ℕ) → first ≤ x → SomePasses (formed_each (columns_down first (self.now.width - first)) self.now.rows) }
    {
        let left = systems[0].eliminate(alloc, x)?;
        put_first(systems, left)?;
        Ok(())
    }
}

fn put_first(systems: &mut Vec<System>, system: System) -> Result<(), AllocError>
    ensures { OnOk result (systems.new.items ≡ system ∷ systems.old.items) }
{
    systems.insert(0, system)?;
    Ok(())
}

/// Each system is kept, which its readers say: there is nothing to run.
fn see_kept(systems: &[System])
    ensures { All IsKeptSystem systems.now }
{
    for system in systems {
        system.width();
    }
}
