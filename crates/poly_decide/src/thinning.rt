//! Elimination that drops implied rows between its columns.

ghost use Rattle.std.specs.Prelude.{◌≡◌, ◌+◌, ◌-◌, ◌<◌, ◌≤◌, ◌∷◌, [], ℕ, Err, IfOk, OnOk};
ghost use Rattle.poly_specs.specs.Bits.{SomePasses};
ghost use Rattle.poly_specs.specs.Elimination.{formed_each, columns_down};
ghost use Rattle.poly_specs.specs.Systems.{AreLevels};
ghost use Rattle.poly_decide.specs.Pruned.{IsPruned, IsLevelOf};

use crate::pruning::prune;
use fm_eliminate::{Levels, RowFault, System};
use std::alloc::{AllocError, Global};

/// More rows than this are searched for those that others imply: the search costs more than it saves
/// where there are few.
const MANY: usize = 24;

/// What is left of the system in the columns before `first`, with zeros in the others: they are
/// eliminated one after the other, from the right. It holds exactly where what plain elimination
/// leaves does, and its rows are among those. Where many rows are left, those that are found to be
/// implied by others are dropped before the next column. `Passes` only where a number that plain
/// elimination forms passes 128 bits, whichever of these columns it ends with.
pub fn thinned_left(alloc: Global, system: &System, first: usize) -> Result<System, RowFault>
    requires { first ≤ system.now.width }
    ensures ok { IfOk result (λ s. IsLevelOf system.now first s) }
    ensures passes { result ≡ Err RowFault.Passes → (end : ℕ) → end ≤ first → SomePasses (formed_each (columns_down end (system.now.width - end)) system.now.rows) }
{
    let width = system.width();
    let mut left = system.copy(alloc)?;
    for done in 0..width - first {
        left = without_column(alloc, system, &left, width - 1 - done)?;
    }
    Ok(left)
}

/// The system without its last columns, step by step: what is left in the columns before `first`,
/// before `first + 1` and so on, and at last the system itself. Where many rows are left, those that
/// are found to be implied by others are dropped before the next column. `Passes` only where a number
/// that plain elimination forms passes 128 bits.
pub fn thinned_levels(alloc: Global, system: &System, first: usize) -> Result<Levels, RowFault>
    requires { first ≤ system.now.width }
    ensures ok { IfOk result (λ l. AreLevels first system.now l) }
    ensures passes { result ≡ Err RowFault.Passes → SomePasses (formed_each (columns_down first (system.now.width - first)) system.now.rows) }
{
    let width = system.width();
    let mut systems = alone(alloc, system)?;
    for done in 0..width - first {
        let x = width - 1 - done;
        add_level(alloc, system, &mut systems, x)?;
    }
    Ok(Levels::of_systems(first, systems))
}

/// A copy of the system, in a list of its own.
fn alone(alloc: Global, system: &System) -> Result<Vec<System>, AllocError>
    ensures { IfOk result (λ v. v.items ≡ system.now ∷ []) }
{
    let mut systems = Vec::new(alloc);
    systems.push(system.copy(alloc)?)?;
    Ok(systems)
}

/// Puts what is left of the first level without column `x` before the levels.
fn add_level(
    alloc: Global,
    system: &System,
    systems: &mut Vec<System>,
    x: usize,
) -> Result<(), RowFault>
    requires within { x < system.now.width }
    requires levels { AreLevels (x + 1) system.now (record { first = x + 1; systems = systems.old.items }) }
    ensures ok { OnOk result (AreLevels x system.now (record { first = x; systems = systems.new.items })) }
    ensures passes { result ≡ Err RowFault.Passes → (end : ℕ) → end ≤ x → SomePasses (formed_each (columns_down end (system.now.width - end)) system.now.rows) }
{
    let left = without_column(alloc, system, &systems[0], x)?;
    put_first(systems, left)?;
    Ok(())
}

fn put_first(systems: &mut Vec<System>, system: System) -> Result<(), AllocError>
    ensures { OnOk result (systems.new.items ≡ system ∷ systems.old.items) }
{
    systems.insert(0, system)?;
    Ok(())
}

/// What is left of the system without column `x`, of what is left without those behind it.
pub fn without_column(
    alloc: Global,
    system: &System,
    left: &System,
    x: usize,
) -> Result<System, RowFault>
    requires within { x < system.now.width }
    requires level { IsLevelOf system.now (x + 1) left.now }
    ensures ok { IfOk result (λ s. IsLevelOf system.now x s) }
    ensures passes { result ≡ Err RowFault.Passes → (end : ℕ) → end ≤ x → SomePasses (formed_each (columns_down end (system.now.width - end)) system.now.rows) }
{
    // Each row has the system's width, as its readers say.
    system.width();
    let all = left.eliminate(alloc, x)?;
    let few = thinned(alloc, all)?;
    Ok(few)
}

/// The system without rows that others imply, if there are many.
fn thinned(alloc: Global, system: System) -> Result<System, AllocError>
    ensures { IfOk result (λ s. IsPruned system s) }
{
    if system.rows().len() <= MANY {
        return Ok(system);
    }
    prune(alloc, &system)
}
