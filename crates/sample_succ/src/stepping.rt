//! The parts of a gap, by a key: a leg, a jump and the sample, each with what is left after it.

ghost use Rattle.std.specs.Prelude.{◌≡◌, ◌+◌, ◌<◌, Err, IfOk, length};
ghost use Rattle.poly_specs.specs.Bits.{SomePasses};
ghost use Rattle.poly_specs.specs.Lists.{IsAmong};
ghost use Rattle.run_specs.specs.Automaton.{width};
ghost use Rattle.run_specs.specs.Keys.{IsKey};
ghost use Rattle.run_specs.specs.Stages.{Stage, rows_after, stage_numbers, leg_stage, jump_stage};
ghost use Rattle.run_specs.specs.Stages as stages;
ghost use Rattle.run_specs.specs.WellFormed.{IsWellFormed};
ghost use Rattle.sample_succ.specs.Plain.{IsPlain, IsLeft, IsLeftInTime, in_time};

use crate::sample_rows::at_most;
use crate::sampling::sample_stage;
use fm_eliminate::{RowFault, System};
use gap_keys::Key;
use jump_succ::jump_succ;
use lha_model::Automaton;
use poly_decide::is_empty;
use std::alloc::{AllocError, Global};
use time_succ::time_succ;

/// The automaton of a key.
pub fn automaton_of(key: &Key) -> &Automaton
    ensures value { result.now ≡ key.now.automaton }
    ensures limits { IsWellFormed key.now.automaton }
    ensures kept { IsKey key.now }
{
    let a: &Automaton = key.automaton();
    a.vars();
    a
}

/// The system, unless it has no point.
fn if_any(alloc: Global, system: System) -> Result<Option<System>, RowFault>
    ensures ok { IfOk result (λ o. (s : Stage) → system.width ≡ s.left → IsPlain s.left system.rows (rows_after s) → IsLeft s o) }
    ensures passes { result ≡ Err RowFault.Passes → (s : Stage) → system.width ≡ s.left → IsAmong system.rows (rows_after s) → SomePasses (stage_numbers s) }
{
    if is_empty(alloc, &system)? {
        return Ok(None);
    }
    Ok(Some(system))
}

/// The system, where no more time has elapsed than the gap lasts.
fn timely(alloc: Global, key: &Key, system: &System) -> Result<System, AllocError>
    requires wide { system.now.width ≡ width key.now.automaton + 1 }
    ensures { IfOk result (λ s. s ≡ record { width = system.now.width; rows = in_time key.now system.now.rows }) }
{
    let m = automaton_of(key).vars().len();
    let gap = key.gap();
    let row = at_most(alloc, m + 1, m, gap);
    let mut timely = system.copy(alloc)?;
    timely.and(&[row])?;
    Ok(timely)
}

/// The system, unless it has no point where at most the gap's length has elapsed: no run goes on from
/// there. A point right at the gap's end is in time.
fn if_in_time(alloc: Global, key: &Key, system: System) -> Result<Option<System>, RowFault>
    requires wide { system.width ≡ width key.now.automaton + 1 }
    ensures ok { IfOk result (λ o. (s : Stage) → system.width ≡ s.left → IsPlain s.left system.rows (rows_after s) → IsLeftInTime key.now s o) }
    ensures passes { result ≡ Err RowFault.Passes → (s : Stage) → system.width ≡ s.left → IsAmong system.rows (rows_after s) → SomePasses (stage_numbers s) }
{
    let timely = timely(alloc, key, &system)?;
    match is_empty(alloc, &timely) {
        Ok(true) => Ok(None),
        Ok(false) => Ok(Some(system)),
        // With a row more, a number may pass that the system itself does not form.
        Err(RowFault::Passes) => if_any(alloc, system),
        Err(RowFault::Memory) => Err(RowFault::Memory),
    }
}

/// Where legs in this location end that start in a state.
pub fn leg(alloc: Global, key: &Key, loc: u8, before: &System) -> Result<Option<System>, RowFault>
    requires known { loc < length key.now.automaton.locations }
    requires wide { before.now.width ≡ width key.now.automaton + 1 }
    ensures ok { IfOk result (λ o. IsLeft (leg_stage key.now.automaton loc before.now.rows) o) }
    ensures passes { result ≡ Err RowFault.Passes → SomePasses (stage_numbers (leg_stage key.now.automaton loc before.now.rows)) }
{
    before.width();
    let a = automaton_of(key);
    let system = time_succ(alloc, a, loc, before)?;
    if_any(alloc, system)
}

/// Where jumps by this transition end that start in a state, unless none ends in time. A jump right at
/// the gap's end is in time.
pub fn jump(alloc: Global, key: &Key, e: u8, before: &System) -> Result<Option<System>, RowFault>
    requires known { e < length key.now.automaton.transitions }
    requires wide { before.now.width ≡ width key.now.automaton + 1 }
    ensures ok { IfOk result (λ o. IsLeftInTime key.now (jump_stage key.now.automaton e before.now.rows) o) }
    ensures passes { result ≡ Err RowFault.Passes → SomePasses (stage_numbers (jump_stage key.now.automaton e before.now.rows)) }
{
    before.width();
    let a = automaton_of(key);
    let system = jump_succ(alloc, a, e, before)?;
    if_in_time(alloc, key, system)
}

/// Where the sample is passed from a state, when the gap's length has elapsed.
pub fn sample(alloc: Global, key: &Key, before: &System) -> Result<Option<System>, RowFault>
    requires wide { before.now.width ≡ width key.now.automaton + 1 }
    ensures ok { IfOk result (λ o. IsLeft (stages.sample_stage key.now.automaton key.now.gap key.now.seen before.now.rows) o) }
    ensures passes { result ≡ Err RowFault.Passes → SomePasses (stage_numbers (stages.sample_stage key.now.automaton key.now.gap key.now.seen before.now.rows)) }
{
    let a = automaton_of(key);
    let gap = key.gap();
    let seen = key.seen();
    let system = sample_stage(alloc, a, gap, seen, before)?;
    if_any(alloc, system)
}
