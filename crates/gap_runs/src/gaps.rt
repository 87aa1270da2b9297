//! The part of a first run in one gap, from the values at its end.

ghost use Rattle.std.specs.Prelude.{◌≡◌, ◌-◌, ◌<◌, ◌≤◌, Err, IfOk, All, drop, length};
ghost use Rattle.poly_specs.specs.Fractions.{IsFraction};
ghost use Rattle.poly_specs.specs.Rows.{AllHold};
ghost use Rattle.replay_specs.specs.RunTexts.{IsWritableGap};
ghost use Rattle.run_specs.specs.Automaton.{width};
ghost use Rattle.run_specs.specs.Keys.{IsKey, parent_at};
ghost use Rattle.run_specs.specs.Outcomes.{MayTake, IsEnd};
ghost use Rattle.run_specs.specs.WellFormed.{IsWellFormed};
ghost use Rattle.sample_succ.specs.Parts.{start_of};
ghost use Rattle.gap_runs.specs.Befores.{common_point};
ghost use Rattle.gap_runs.specs.Gaps.{end_of_gap, IsGapBack, IsTracedGap, GapBackPasses};
ghost use Rattle.gap_runs.specs.Traces.{after_of, IsBack};

use crate::commons::{over_all, see_all_kept};
use crate::parts::from_place;
use crate::paths::{system, trace};
use crate::shapes::gap_run_of;
use crate::traces::{Back, add_all};
use fm_eliminate::{RowFault, System};
use frac128::Frac;
use gap_keys::Key;
use lha_model::{Automaton, GapRun};
use sample_succ::stages;
use std::alloc::{AllocError, Global};
use std::marker::Model;

/// The part of a run in one gap, and the values at its start, where the part in the gap before ends.
#[derive(Drop)]
pub struct GapBack {
    /// The part in the gap, over its least denominator.
    pub gap: GapRun,
    /// The values at its start, in lowest terms.
    pub start: Vec<Frac>,
}

impl Model for GapBack {
    ghost use Rattle.gap_runs.specs.Gaps.{GapValue};

    ghost Value = { GapValue };

    ghost view = { λ b. record { gap = b.gap; start = b.start.items } };
}

/// The automaton of a key.
fn automaton_of(key: &Key) -> &Automaton
    ensures value { result.now ≡ key.now.automaton }
    ensures limits { IsWellFormed key.now.automaton }
    ensures kept { IsKey key.now }
{
    let a: &Automaton = key.automaton();
    a.vars();
    a
}

/// The number of the location of the state before the gap of this number.
fn loc_of(key: &Key, parent: usize) -> u8
    requires known { parent < length key.now.belief }
    ensures value { result ≡ (parent_at key.now parent).loc }
    ensures within { result < length key.now.automaton.locations }
{
    let state = &key.belief().states()[parent];
    state.loc()
}

/// The systems after the first.
fn after_first(systems: &[System]) -> &[System]
    requires { 1 ≤ length systems.now }
    ensures { result.now ≡ drop 1 systems.now }
{
    &systems[1..]
}

/// Copies of the numbers.
fn copied(alloc: Global, numbers: &[Frac]) -> Result<Vec<Frac>, AllocError>
    ensures { IfOk result (λ v. v.items ≡ numbers.now) }
{
    let mut copies = Vec::new(alloc);
    add_all(&mut copies, numbers)?;
    Ok(copies)
}

/// Where the gap ends: the last values, at which its whole length has elapsed.
fn end_of(alloc: Global, key: &Key, last: &[Frac]) -> Result<Back, AllocError>
    ensures { IfOk result (λ b. b ≡ end_of_gap key.now last.now) }
{
    let numbers = copied(alloc, last)?;
    Ok(Back {
        numbers,
        elapsed: *key.gap(),
    })
}

/// All numbers of the gap, backwards from its last values.
fn traced_gap(
    alloc: Global,
    key: &Key,
    parent: usize,
    path: &[u8],
    last: &[Frac],
) -> Result<Back, RowFault>
    requires may_take { MayTake key.now parent path.now }
    requires sized { length last.now ≡ width key.now.automaton }
    requires reached { IsEnd key.now parent path.now (common_point last.now) }
    ensures ok { IfOk result (IsTracedGap key.now parent path.now last.now) }
    ensures back { IfOk result (IsBack (width key.now.automaton)) }
    ensures inside { IfOk result (λ b. AllHold (start_of key.now parent).rows (common_point (after_of (width key.now.automaton) b))) }
    ensures passes { result ≡ Err RowFault.Passes → GapBackPasses key.now parent path.now last.now }
{
    see_all_kept(last);
    let a = automaton_of(key);
    let loc = loc_of(key, parent);
    let systems = stages(alloc, key, parent, path)?;
    let end = end_of(alloc, key, last)?;
    let before = system(systems.as_slice(), 0);
    let after = after_first(systems.as_slice());
    let back = trace(alloc, a, loc, path, path.len(), before, after, end)?;
    Ok(back)
}

/// The values at the start of a gap: the last of its numbers.
fn start_of_gap(alloc: Global, m: usize, numbers: &[Frac]) -> Result<Vec<Frac>, AllocError>
    requires { m ≤ length numbers.now }
    ensures { IfOk result (λ v. v.items ≡ drop (length numbers.now - m) numbers.now) }
{
    copied(alloc, from_place(numbers, numbers.len() - m))
}

/// Goes back over the key's gap, along a path from the state before it of this number, from the
/// values at its end: of each leg its length is picked and then the values at its start, of each
/// jump the values before it.
///
/// `Passes` only where a number of a reached stage of the gap passes 128 bits, picking one of these
/// numbers does, or writing them over their least common denominator.
pub fn gap_back(
    alloc: Global,
    key: &Key,
    parent: usize,
    path: &[u8],
    last: &[Frac],
) -> Result<GapBack, RowFault>
    requires may_take { MayTake key.now parent path.now }
    requires sized { length last.now ≡ width key.now.automaton }
    requires reached { IsEnd key.now parent path.now (common_point last.now) }
    ensures ok { IfOk result (IsGapBack key.now parent path.now last.now) }
    ensures sized { IfOk result (λ b. length b.start ≡ width key.now.automaton) }
    ensures fractions { IfOk result (λ b. All IsFraction b.start) }
    ensures inside { IfOk result (λ b. AllHold (parent_at key.now parent).rows (common_point b.start)) }
    ensures writable { IfOk result (λ b. IsWritableGap b.gap) }
    ensures passes { result ≡ Err RowFault.Passes → GapBackPasses key.now parent path.now last.now }
{
    see_all_kept(last);
    let m = automaton_of(key).vars().len();
    let loc = loc_of(key, parent);
    let back = traced_gap(alloc, key, parent, path, last)?;
    let numbers = over_all(alloc, back.numbers.as_slice())?;
    // No number of the point passes, as its readers say.
    numbers.den();
    let gap = gap_run_of(alloc, m, loc, path, &numbers)?;
    let start = start_of_gap(alloc, m, back.numbers.as_slice())?;
    Ok(GapBack { gap, start })
}
