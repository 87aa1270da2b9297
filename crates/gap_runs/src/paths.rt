//! The numbers of a gap, backwards along its whole path.

ghost use Rattle.std.specs.Prelude.{◌≡◌, ◌+◌, ◌-◌, ◌<◌, ◌≤◌, [], Err, IfOk, drop, length, option_map, pos, ◌<ℤ◌};
ghost use Rattle.poly_specs.specs.Rows.{AllHold};
ghost use Rattle.run_specs.specs.Automaton.{width, transition_at};
ghost use Rattle.run_specs.specs.Passes.{Fits};
ghost use Rattle.sample_succ.specs.Parts.{IsSplit};
ghost use Rattle.gap_runs.specs.Befores.{common_point};
ghost use Rattle.gap_runs.specs.Traces.{after_of, IsBack, IsLegBack, LegBackPasses};
ghost use Rattle.gap_runs.specs.Paths.{system_at, last_system, ArePath, AreTraced, TracePasses};

use crate::traces::{Back, jump_back, leg_back};
use fm_eliminate::{RowFault, System};
use lha_model::Automaton;
use std::alloc::Global;

/// The first transition of a path, and those after it.
fn split(path: &[u8]) -> Option<(u8, &[u8])>
    ensures { IsSplit path.now (option_map (λ p. (p.0, p.1.now)) result) }
{
    match path {
        [] => None,
        [e, rest @ ..] => Some((*e, rest)),
    }
}

/// The number of the location to which a transition leads.
fn target_of(a: &Automaton, trans: u8) -> u8
    requires { trans < length a.now.transitions }
    ensures target { result ≡ (transition_at a.now trans).target }
    ensures known { result < length a.now.locations }
{
    // The automaton is within its limits, as its readers say.
    a.vars();
    a.trans()[usize::from(trans)].to()
}

/// The system of this number.
pub fn system(systems: &[System], i: usize) -> &System
    requires { i < length systems.now }
    ensures { result.now ≡ system_at systems.now i }
{
    &systems[i]
}

/// The systems but the first two.
fn after_two(systems: &[System]) -> &[System]
    requires { 2 ≤ length systems.now }
    ensures { result.now ≡ drop 2 systems.now }
{
    &systems[2..]
}

/// The last leg of a path.
fn last_leg(
    alloc: Global,
    a: &Automaton,
    loc: u8,
    before: &System,
    systems: &[System],
    back: Back,
) -> Result<Back, RowFault>
    requires known { loc < length a.now.locations }
    requires wide { before.now.width ≡ width a.now + 1 }
    requires path { ArePath a.now loc [] before.now systems.now }
    requires back { IsBack (width a.now) back }
    requires inside { AllHold (last_system systems.now).rows (common_point (after_of (width a.now) back)) }
    ensures ok { IfOk result (λ b. IsLegBack a.now loc before.now.rows back b) }
    ensures back { IfOk result (IsBack (width a.now)) }
    ensures inside { IfOk result (λ b. AllHold before.now.rows (common_point (after_of (width a.now) b))) }
    ensures passes { result ≡ Err RowFault.Passes → LegBackPasses a.now loc before.now.rows back }
{
    leg_back(alloc, a, loc, before, back)
}

/// Goes back along a path of so many transitions from a location, whose systems are these: the one
/// before its first leg, and those after each leg and each jump.
pub fn trace(
    alloc: Global,
    a: &Automaton,
    loc: u8,
    path: &[u8],
    left: usize,
    before: &System,
    systems: &[System],
    back: Back,
) -> Result<Back, RowFault>
    requires known { loc < length a.now.locations }
    requires fits { Fits a.now loc path.now }
    requires left { left ≡ length path.now }
    requires wide { before.now.width ≡ width a.now + 1 }
    requires path { ArePath a.now loc path.now before.now systems.now }
    requires back { IsBack (width a.now) back }
    requires inside { AllHold (last_system systems.now).rows (common_point (after_of (width a.now) back)) }
    ensures ok { IfOk result (λ b. AreTraced a.now loc path.now before.now systems.now back b) }
    ensures back { IfOk result (IsBack (width a.now)) }
    ensures inside { IfOk result (λ b. AllHold before.now.rows (common_point (after_of (width a.now) b))) }
    ensures passes { result ≡ Err RowFault.Passes → TracePasses a.now loc path.now before.now systems.now back }
{
    match split(path) {
        None => {
            let first = last_leg(alloc, a, loc, before, systems, back)?;
            Ok(first)
        }
        Some((e, rest)) => {
            let target = target_of(a, e);
            let start = system(systems, 1);
            let more = after_two(systems);
            let later = trace(alloc, a, target, rest, left - 1, start, more, back)?;
            let ended = system(systems, 0);
            let between = jump_back(alloc, a, e, ended, later)?;
            let first = leg_back(alloc, a, loc, before, between)?;
            Ok(first)
        }
    }
}
