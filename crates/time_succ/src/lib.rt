//! Legs: from where a run may stand in a location, to where it may stand after a while.
#![tactic(auto)]

mod leg_rows;

ghost use Rattle.std.specs.Prelude.{◌≡◌, ◌↔◌, ◌+◌, ◌*◌, ◌<◌, ◌++◌, [], ◌∷◌, List, ℤ, pos, ◌-ℤ◌, ◌<ℤ◌, Err, IfOk, length};
ghost use Rattle.poly_specs.specs.Bits.{SomePasses};
ghost use Rattle.poly_specs.specs.Elimination.{formed_each};
ghost use Rattle.poly_specs.specs.Lists.{IsAmong};
ghost use Rattle.poly_specs.specs.Rows.{over, AllHold};
ghost use Rattle.run_specs.specs.Automaton.{width, location_at};
ghost use Rattle.run_specs.specs.Ends.{SomeLegEnds};
ghost use Rattle.run_specs.specs.Runs.{IsLeg};
ghost use Rattle.run_specs.specs.Stages.{leg_point, leg_rows, leg_stage, rows_after};

use fm_eliminate::{RowFault, System};
use lha_model::Automaton;
use std::alloc::{AllocError, Global};

/// The system of a leg in location number `loc` from a state: rows over the values and then the
/// time that has elapsed in the gap.
///
/// Its columns are the values at the leg's end, the elapsed time there, the leg's length, and the
/// values at its start. It holds exactly where the state holds at the start, and a leg of this
/// length leads from there to the end.
pub fn leg_system(
    alloc: Global,
    a: &Automaton,
    loc: u8,
    state: &System,
) -> Result<System, AllocError>
    requires known { loc < length a.now.locations }
    requires wide { state.now.width ≡ width a.now + 1 }
    ensures rows { IfOk result (λ s. s ≡ record { width = 2 * width a.now + 2; rows = leg_rows a.now loc state.now.rows }) }
    ensures exact { IfOk result (λ s. (d : ℤ) (q : List ℤ) (elapsed t : ℤ) (p : List ℤ) → length q ≡ width a.now → length p ≡ width a.now →
        AllHold s.rows (leg_point d q elapsed t p)
        ↔ AllHold state.now.rows (over d (p ++ (elapsed -ℤ t) ∷ [])) × IsLeg (location_at a.now loc) d p t q) }
{
    let m = a.vars().len();
    let place = &a.locs()[usize::from(loc)];
    let mut rows = Vec::new(alloc);
    leg_rows::add_state(alloc, &mut rows, state.rows(), m)?;
    leg_rows::add_invariant(alloc, &mut rows, place.inv(), m)?;
    leg_rows::add_flow(alloc, &mut rows, place.flow(), m)?;
    Ok(System::of_rows(2 * m + 2, rows))
}

/// Where legs in location number `loc` end that start in a state.
///
/// The state and the result are rows over the values and then the time that has elapsed in the
/// gap. The result holds exactly at the ends of such legs. It says `RowFault::Passes` where a
/// number that plain elimination of the leg's system forms passes 128 bits.
pub fn time_succ(alloc: Global, a: &Automaton, loc: u8, state: &System) -> Result<System, RowFault>
    requires known { loc < length a.now.locations }
    requires wide { state.now.width ≡ width a.now + 1 }
    ensures wide { IfOk result (λ s. s.width ≡ width a.now + 1) }
    ensures exact { IfOk result (λ s. (d : ℤ) (end : List ℤ) → pos 0 <ℤ d → length end ≡ width a.now + 1 →
        AllHold s.rows (over d end) ↔ SomeLegEnds a.now loc state.now.rows (over d end)) }
    ensures plain { IfOk result (λ s. IsAmong s.rows (rows_after (leg_stage a.now loc state.now.rows))) }
    ensures passes { result ≡ Err RowFault.Passes →
        SomePasses (formed_each (leg_stage a.now loc state.now.rows).columns (leg_rows a.now loc state.now.rows)) }
{
    // Each row of the state has its width, as its readers say.
    state.width();
    let first = a.vars().len() + 1;
    let system = leg_system(alloc, a, loc, state)?;
    stage_rows::project(alloc, &system, first)
}
