//! Jumps: from where a run may stand when a transition is taken, to where it may stand after.
#![tactic(auto)]

mod jump_rows;

ghost use Rattle.std.specs.Prelude.{◌≡◌, ◌↔◌, ◌+◌, ◌*◌, ◌<◌, ◌++◌, [], ◌∷◌, List, ℤ, pos, ◌<ℤ◌, Err, IfOk, length};
ghost use Rattle.poly_specs.specs.Bits.{SomePasses};
ghost use Rattle.poly_specs.specs.Elimination.{formed_each};
ghost use Rattle.poly_specs.specs.Lists.{IsAmong};
ghost use Rattle.poly_specs.specs.Rows.{over, AllHold};
ghost use Rattle.run_specs.specs.Automaton.{width};
ghost use Rattle.run_specs.specs.Ends.{SomeJumpEnds};
ghost use Rattle.run_specs.specs.Runs.{IsJump};
ghost use Rattle.run_specs.specs.Stages.{jump_point, jump_rows, jump_stage, rows_after};

use fm_eliminate::{RowFault, System};
use lha_model::Automaton;
use std::alloc::{AllocError, Global};

/// The system of a jump by transition number `trans` from a state: rows over the values and then
/// the time that has elapsed in the gap.
///
/// Its columns are the values after the jump, the elapsed time, and the values before it. It holds
/// exactly where the state holds before, and the transition leads from there to the values after.
pub fn jump_system(
    alloc: Global,
    a: &Automaton,
    trans: u8,
    state: &System,
) -> Result<System, AllocError>
    requires known { trans < length a.now.transitions }
    requires wide { state.now.width ≡ width a.now + 1 }
    ensures rows { IfOk result (λ s. s ≡ record { width = 2 * width a.now + 1; rows = jump_rows a.now trans state.now.rows }) }
    ensures exact { IfOk result (λ s. (d : ℤ) (q : List ℤ) (elapsed : ℤ) (p : List ℤ) → length q ≡ width a.now → length p ≡ width a.now →
        AllHold s.rows (jump_point d q elapsed p) ↔ AllHold state.now.rows (over d (p ++ elapsed ∷ [])) × IsJump a.now trans d p q) }
{
    let m = a.vars().len();
    let transition = &a.trans()[usize::from(trans)];
    let target = &a.locs()[usize::from(transition.to())];
    let mut rows = Vec::new(alloc);
    jump_rows::add_state(alloc, &mut rows, state.rows(), m)?;
    jump_rows::add_relation(alloc, &mut rows, transition.rel(), m)?;
    jump_rows::add_invariant(alloc, &mut rows, target.inv(), m)?;
    Ok(System::of_rows(2 * m + 1, rows))
}

/// Where jumps by transition number `trans` end that start in a state.
///
/// The state and the result are rows over the values and then the time that has elapsed in the
/// gap. The result holds exactly at the ends of such jumps. It says `RowFault::Passes` where a
/// number that plain elimination of the jump's system forms passes 128 bits.
pub fn jump_succ(
    alloc: Global,
    a: &Automaton,
    trans: u8,
    state: &System,
) -> Result<System, RowFault>
    requires known { trans < length a.now.transitions }
    requires wide { state.now.width ≡ width a.now + 1 }
    ensures wide { IfOk result (λ s. s.width ≡ width a.now + 1) }
    ensures exact { IfOk result (λ s. (d : ℤ) (end : List ℤ) → pos 0 <ℤ d → length end ≡ width a.now + 1 →
        AllHold s.rows (over d end) ↔ SomeJumpEnds a.now trans state.now.rows (over d end)) }
    ensures plain { IfOk result (λ s. IsAmong s.rows (rows_after (jump_stage a.now trans state.now.rows))) }
    ensures passes { result ≡ Err RowFault.Passes →
        SomePasses (formed_each (jump_stage a.now trans state.now.rows).columns (jump_rows a.now trans state.now.rows)) }
{
    // Each row of the state has its width, as its readers say.
    state.width();
    let first = a.vars().len() + 1;
    let system = jump_system(alloc, a, trans, state)?;
    stage_rows::project(alloc, &system, first)
}
