//! A sample after a gap: from where a run may stand when its length has elapsed, to where it may
//! stand with the observed values.

ghost use Rattle.std.specs.Prelude.{◌≡◌, ◌+◌, ◌<◌, ◌≤◌, ◌++◌, ◌∷◌, [], Err, IfOk, length, filter};
ghost use Rattle.poly_decide.specs.Pruned.{IsPruned};
ghost use Rattle.poly_specs.specs.Bits.{SomePasses};
ghost use Rattle.poly_specs.specs.Elimination.{eliminated_each, formed_each, columns_down};
ghost use Rattle.poly_specs.specs.Systems.{AreFreeOf};
ghost use Rattle.run_specs.specs.Automaton.{width};
ghost use Rattle.run_specs.specs.Stages as stages;
ghost use Rattle.run_specs.specs.Stages.{rows_after, stage_numbers, seen_exactly};
ghost use Rattle.sample_succ.specs.Plain.{IsPlain};

use crate::sample_rows::{added_rows, exact_rows, is_exact};
use fm_eliminate::{RowFault, System};
use frac128::Frac;
use lha_model::Automaton;
use poly_decide::prune;
use std::alloc::{AllocError, Global};

/// The state with the rows of the sample.
fn sample_system(
    alloc: Global,
    a: &Automaton,
    gap: &Frac,
    seen: &[Option<Frac>],
    state: &System,
) -> Result<System, RowFault>
    requires sized { length seen.now ≡ width a.now }
    requires wide { state.now.width ≡ width a.now + 1 }
    ensures ok { IfOk result (λ s. s ≡ record { width = width a.now + 1; rows = stages.sample_rows a.now gap.now seen.now state.now.rows }) }
    ensures passes { result ≡ Err RowFault.Passes → SomePasses (stage_numbers (stages.sample_stage a.now gap.now seen.now state.now.rows)) }
{
    // Each row of the state has its width, as its readers say.
    state.width();
    let rows = added_rows(alloc, a, gap, seen)?;
    let mut system = state.copy(alloc)?;
    system.and(rows.as_slice())?;
    Ok(system)
}

/// What is left without this column, if it is observed with the tolerance 0.
fn without_column(
    alloc: Global,
    a: &Automaton,
    seen: &[Option<Frac>],
    system: System,
    x: usize,
) -> Result<System, RowFault>
    requires sized { length seen.now ≡ width a.now }
    requires wide { system.width ≡ width a.now + 1 }
    requires within { x < width a.now }
    requires free { AreFreeOf (width a.now) system.rows }
    ensures wide { IfOk result (λ s. s.width ≡ width a.now + 1) }
    ensures free { IfOk result (λ s. AreFreeOf (width a.now) s.rows) }
    ensures plain { IfOk result (λ s. IsPlain (width a.now + 1) s.rows (eliminated_each (filter (seen_exactly a.now seen.now) (x ∷ [])) system.rows)) }
    ensures passes { result ≡ Err RowFault.Passes → SomePasses (formed_each (filter (seen_exactly a.now seen.now) (x ∷ [])) system.rows) }
{
    // Each row has the system's width, as its readers say.
    system.width();
    if !is_exact(a, seen, x) {
        return Ok(system);
    }
    system.eliminate(alloc, x)
}

/// What is left without the columns before `n` that are observed with the tolerance 0, from the
/// right.
fn without_exact(
    alloc: Global,
    a: &Automaton,
    seen: &[Option<Frac>],
    system: System,
    n: usize,
) -> Result<System, RowFault>
    requires sized { length seen.now ≡ width a.now }
    requires wide { system.width ≡ width a.now + 1 }
    requires within { n ≤ width a.now }
    requires free { AreFreeOf (width a.now) system.rows }
    ensures wide { IfOk result (λ s. s.width ≡ width a.now + 1) }
    ensures free { IfOk result (λ s. AreFreeOf (width a.now) s.rows) }
    ensures plain { IfOk result (λ s. IsPlain (width a.now + 1) s.rows (eliminated_each (filter (seen_exactly a.now seen.now) (columns_down 0 n)) system.rows)) }
    ensures passes { result ≡ Err RowFault.Passes → SomePasses (formed_each (filter (seen_exactly a.now seen.now) (columns_down 0 n)) system.rows) }
{
    if n == 0 {
        return Ok(system);
    }
    // Each row has the system's width, as its readers say.
    system.width();
    let left = without_column(alloc, a, seen, system, n - 1)?;
    left.width();
    without_exact(alloc, a, seen, left, n - 1)
}

/// Where runs may stand that pass a sample when the gap's length has elapsed.
///
/// The state is rows over the values and then the time that has elapsed in the gap; the result is
/// rows over the values. It holds where the rows of the plain stage do, and has some of them, without
/// those that are found to be implied by others. It says `RowFault::Passes` where a number of the
/// plain stage passes 128 bits.
pub fn sample_stage(
    alloc: Global,
    a: &Automaton,
    gap: &Frac,
    seen: &[Option<Frac>],
    state: &System,
) -> Result<System, RowFault>
    requires sized { length seen.now ≡ width a.now }
    requires wide { state.now.width ≡ width a.now + 1 }
    ensures wide { IfOk result (λ s. s.width ≡ width a.now) }
    ensures plain { IfOk result (λ s. IsPlain (width a.now) s.rows (rows_after (stages.sample_stage a.now gap.now seen.now state.now.rows))) }
    ensures passes { result ≡ Err RowFault.Passes → SomePasses (stage_numbers (stages.sample_stage a.now gap.now seen.now state.now.rows)) }
{
    let system = unpruned_stage(alloc, a, gap, seen, state)?;
    let few = pruned(alloc, &system)?;
    Ok(few)
}

/// The system without rows that others imply.
fn pruned(alloc: Global, system: &System) -> Result<System, AllocError>
    ensures { IfOk result (λ s. IsPruned system.now s) }
{
    prune(alloc, system)
}

/// The same, before rows that others imply are dropped.
fn unpruned_stage(
    alloc: Global,
    a: &Automaton,
    gap: &Frac,
    seen: &[Option<Frac>],
    state: &System,
) -> Result<System, RowFault>
    requires sized { length seen.now ≡ width a.now }
    requires wide { state.now.width ≡ width a.now + 1 }
    ensures wide { IfOk result (λ s. s.width ≡ width a.now) }
    ensures plain { IfOk result (λ s. IsPlain (width a.now) s.rows (rows_after (stages.sample_stage a.now gap.now seen.now state.now.rows))) }
    ensures passes { result ≡ Err RowFault.Passes → SomePasses (stage_numbers (stages.sample_stage a.now gap.now seen.now state.now.rows)) }
{
    // Each row of the state has its width, as its readers say.
    state.width();
    let m = a.vars().len();
    let system = sample_system(alloc, a, gap, seen, state)?;
    system.width();
    let timeless = system.eliminate(alloc, m)?;
    let mut left = without_exact(alloc, a, seen, timeless, m)?;
    left.width();
    let again = exact_rows(alloc, a, seen)?;
    left.and(again.as_slice())?;
    Ok(left.cut(alloc, m)?)
}
