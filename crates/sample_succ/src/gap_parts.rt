//! The systems that a gap goes through along one path.

ghost use Rattle.std.specs.Prelude.{◌≡◌, ◌+◌, ◌<◌, ◌++◌, [], ◌∷◌, List, ℕ, Err, IfOk, OnOk, length, option_map};
ghost use Rattle.poly_specs.specs.Bits.{SomePasses};
ghost use Rattle.poly_specs.specs.Elimination.{formed_each};
ghost use Rattle.poly_specs.specs.Lists.{IsAmong};
ghost use Rattle.poly_specs.specs.Rows.{Row as RowValue};
ghost use Rattle.poly_specs.specs.Systems.{System as SystemValue};
ghost use Rattle.run_specs.specs.Automaton.{width};
ghost use Rattle.run_specs.specs.Keys.{parent_at};
ghost use Rattle.run_specs.specs.Outcomes.{MayTake};
ghost use Rattle.run_specs.specs.Passes.{Fits};
ghost use Rattle.run_specs.specs.Stages.{leg_stage, jump_stage, path_stages};
ghost use Rattle.sample_succ.specs.Parts.{IsAfterLeg, IsAfterJump, IsSplit, AreParts, AreStages, SomeFormedPasses, StagesPass};

use crate::gap_starts::{parent_of, start_system};
use crate::gap_walk::target_of;
use crate::stepping::automaton_of;
use fm_eliminate::{RowFault, System};
use gap_keys::Key;
use jump_succ::jump_succ;
use std::alloc::{AllocError, Global};
use time_succ::time_succ;

/// The system after a leg.
fn after_leg(alloc: Global, key: &Key, loc: u8, before: &System) -> Result<System, RowFault>
    requires known { loc < length key.now.automaton.locations }
    requires wide { before.now.width ≡ width key.now.automaton + 1 }
    ensures ok { IfOk result (λ s. (plain : List RowValue) → IsAmong before.now.rows plain → IsAfterLeg key.now.automaton loc before.now s plain) }
    ensures passes { result ≡ Err RowFault.Passes → (plain : List RowValue) → IsAmong before.now.rows plain →
        SomePasses (formed_each (leg_stage key.now.automaton loc plain).columns (leg_stage key.now.automaton loc plain).rows) }
{
    let a = automaton_of(key);
    let after = time_succ(alloc, a, loc, before)?;
    Ok(after)
}

/// The system after a jump.
fn after_jump(alloc: Global, key: &Key, e: u8, before: &System) -> Result<System, RowFault>
    requires known { e < length key.now.automaton.transitions }
    requires wide { before.now.width ≡ width key.now.automaton + 1 }
    ensures ok { IfOk result (λ s. (plain : List RowValue) → IsAmong before.now.rows plain → IsAfterJump key.now.automaton e before.now s plain) }
    ensures passes { result ≡ Err RowFault.Passes → (plain : List RowValue) → IsAmong before.now.rows plain →
        SomePasses (formed_each (jump_stage key.now.automaton e plain).columns (jump_stage key.now.automaton e plain).rows) }
{
    let a = automaton_of(key);
    let after = jump_succ(alloc, a, e, before)?;
    Ok(after)
}

fn one(alloc: Global, s: System) -> Result<Vec<System>, AllocError>
    ensures { IfOk result (λ v. v.items ≡ s ∷ []) }
{
    let mut systems = Vec::new(alloc);
    systems.push(s)?;
    Ok(systems)
}

fn put_two(s: System, t: System, systems: &mut Vec<System>) -> Result<(), AllocError>
    ensures { OnOk result (systems.new.items ≡ s ∷ t ∷ systems.old.items) }
{
    systems.insert(0, t)?;
    systems.insert(0, s)?;
    Ok(())
}

/// The first transition of a path, and those after it.
fn split(path: &[u8]) -> Option<(u8, &[u8])>
    ensures { IsSplit path.now (option_map (λ p. (p.0, p.1.now)) result) }
{
    match path {
        [] => None,
        [e, rest @ ..] => Some((*e, rest)),
    }
}

/// The systems along the path, of so many transitions, from a location, after each leg and each
/// jump.
fn parts(
    alloc: Global,
    key: &Key,
    loc: u8,
    path: &[u8],
    left: usize,
    before: &System,
) -> Result<Vec<System>, RowFault>
    requires known { loc < length key.now.automaton.locations }
    requires fits { Fits key.now.automaton loc path.now }
    requires left { left ≡ length path.now }
    requires wide { before.now.width ≡ width key.now.automaton + 1 }
    ensures ok { IfOk result (λ v. (plain : List RowValue) → IsAmong before.now.rows plain → AreParts key.now.automaton loc path.now before.now plain v.items) }
    ensures passes { result ≡ Err RowFault.Passes → (plain : List RowValue) → IsAmong before.now.rows plain → SomeFormedPasses (path_stages key.now.automaton loc path.now plain) }
{
    let leg = after_leg(alloc, key, loc, before)?;
    match split(path) {
        None => Ok(one(alloc, leg)?),
        Some((e, rest)) => {
            let jump = after_jump(alloc, key, e, &leg)?;
            let target = target_of(key, e);
            let mut systems = parts(alloc, key, target, rest, left - 1, &jump)?;
            put_two(leg, jump, &mut systems)?;
            Ok(systems)
        }
    }
}

fn put_first(s: System, systems: &mut Vec<System>) -> Result<(), AllocError>
    ensures { OnOk result (systems.new.items ≡ s ∷ systems.old.items) }
{
    systems.insert(0, s)?;
    Ok(())
}

/// The systems along a path from the state before the gap of this number: the start of the gap, and
/// then where runs may stand after each leg and each jump, with the elapsed time.
///
/// `Passes` where a number of a plain stage along the path passes 128 bits.
pub fn stages(alloc: Global, key: &Key, parent: usize, path: &[u8]) -> Result<Vec<System>, RowFault>
    requires may_take { MayTake key.now parent path.now }
    ensures ok { IfOk result (λ v. AreStages key.now parent path.now v.items) }
    ensures passes { result ≡ Err RowFault.Passes → StagesPass key.now parent path.now }
{
    let start = start_system(alloc, key, parent)?;
    let state = parent_of(key, parent);
    let loc = state.loc();
    let left = path.len();
    let mut systems = parts(alloc, key, loc, path, left, &start)?;
    put_first(start, &mut systems)?;
    Ok(systems)
}
