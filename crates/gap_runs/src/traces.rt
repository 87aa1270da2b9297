//! The numbers of a gap, backwards from where it ends: over one leg, and over one jump.

ghost use Rattle.std.specs.Prelude.{◌≡◌, ◌+◌, ◌-◌, ◌<◌, ◌≤◌, ◌++◌, ◌∷◌, [], All, Err, IfOk, OnOk, drop, length};
ghost use Rattle.poly_specs.specs.Arithmetic.{IsKept};
ghost use Rattle.poly_specs.specs.Bits.{SomePasses};
ghost use Rattle.poly_specs.specs.Denominators.{common_numbers};
ghost use Rattle.poly_specs.specs.Rows.{AllHold};
ghost use Rattle.run_specs.specs.Automaton.{width};
ghost use Rattle.run_specs.specs.Ends.{SomeLegEnds, SomeJumpEnds};
ghost use Rattle.gap_runs.specs.Befores.{common_point, leg_columns, jump_columns};
ghost use Rattle.gap_runs.specs.Traces.{after_of, ArePickedAfter, IsBack, IsLegBack, IsJumpBack, BackPasses, LegBackPasses, JumpBackPasses};

use crate::befores::{jump_point, leg_point};
use crate::commons::over_all;
use crate::parts::{from_place, lowest_of};
use fm_eliminate::{RowFault, System};
use frac128::Frac;
use lha_model::Automaton;
use lin_row::Point;
use std::alloc::{AllocError, Global};
use std::marker::Model;

/// The numbers of a gap so far, in the order in which they are picked, the last of which are values
/// of the variables; and the time that has elapsed where the run has these values.
#[derive(Drop)]
pub struct Back {
    /// The numbers.
    pub numbers: Vec<Frac>,
    /// The elapsed time.
    pub elapsed: Frac,
}

impl Model for Back {
    ghost use Rattle.gap_runs.specs.Traces.{BackValue};

    ghost Value = { BackValue };

    ghost view = { λ b. record { numbers = b.numbers.items; elapsed = b.elapsed } };
}

fn push(numbers: &mut Vec<Frac>, number: Frac) -> Result<(), AllocError>
    ensures { OnOk result (numbers.new.items ≡ numbers.old.items ++ number ∷ []) }
{
    numbers.push(number)?;
    Ok(())
}

/// Appends the numbers.
pub fn add_all(numbers: &mut Vec<Frac>, more: &[Frac]) -> Result<(), AllocError>
    ensures { OnOk result (numbers.new.items ≡ numbers.old.items ++ more.now) }
{
    for number in more {
        push(numbers, *number)?;
    }
    Ok(())
}

/// The last values.
fn last_values(m: usize, numbers: &[Frac]) -> &[Frac]
    requires { m ≤ length numbers.now }
    ensures { result.now ≡ drop (length numbers.now - m) numbers.now }
{
    from_place(numbers, numbers.len() - m)
}

/// These numbers, and then one more.
fn with_one(alloc: Global, numbers: &[Frac], number: Frac) -> Result<Vec<Frac>, AllocError>
    ensures { IfOk result (λ v. v.items ≡ numbers.now ++ number ∷ []) }
{
    let mut all = Vec::new(alloc);
    add_all(&mut all, numbers)?;
    push(&mut all, number)?;
    Ok(all)
}

/// The last values, and then the elapsed time.
fn after_numbers(alloc: Global, m: usize, back: &Back) -> Result<Vec<Frac>, AllocError>
    requires { m ≤ length back.now.numbers }
    ensures { IfOk result (λ v. v.items ≡ after_of m back.now) }
{
    with_one(alloc, last_values(m, back.numbers.as_slice()), back.elapsed)
}

/// The point of the last values, and then the elapsed time.
fn after_point(alloc: Global, m: usize, back: &Back) -> Result<Point, RowFault>
    requires { m ≤ length back.now.numbers }
    ensures ok { IfOk result (λ p. p ≡ common_point (after_of m back.now)) }
    ensures kept { IfOk result (λ p. All IsKept (after_of m back.now)) }
    ensures passes { result ≡ Err RowFault.Passes → SomePasses (common_numbers (after_of m back.now)) }
{
    let after = after_numbers(alloc, m, back)?;
    over_all(alloc, after.as_slice())
}

/// The numbers of a leg in location number `loc` that starts in the state: the last values, the
/// elapsed time, and then the length and the values at the start that are picked.
fn leg_numbers(
    alloc: Global,
    a: &Automaton,
    loc: u8,
    state: &System,
    back: &Back,
) -> Result<Vec<Frac>, RowFault>
    requires known { loc < length a.now.locations }
    requires wide { state.now.width ≡ width a.now + 1 }
    requires sized { width a.now ≤ length back.now.numbers }
    requires reached { SomeLegEnds a.now loc state.now.rows (common_point (after_of (width a.now) back.now)) }
    ensures ok { IfOk result (λ v. ArePickedAfter (leg_columns a.now loc state.now.rows) (after_of (width a.now) back.now) v.items) }
    ensures passes { result ≡ Err RowFault.Passes → BackPasses (width a.now) (leg_columns a.now loc state.now.rows) back.now }
{
    let after = after_point(alloc, a.vars().len(), back)?;
    let point = leg_point(alloc, a, loc, state, &after)?;
    let numbers = lowest_of(alloc, &point)?;
    Ok(numbers)
}

/// The numbers of a jump by transition number `trans` that starts in the state: the last values,
/// the elapsed time, and then the values before that are picked.
fn jump_numbers(
    alloc: Global,
    a: &Automaton,
    trans: u8,
    state: &System,
    back: &Back,
) -> Result<Vec<Frac>, RowFault>
    requires known { trans < length a.now.transitions }
    requires wide { state.now.width ≡ width a.now + 1 }
    requires sized { width a.now ≤ length back.now.numbers }
    requires reached { SomeJumpEnds a.now trans state.now.rows (common_point (after_of (width a.now) back.now)) }
    ensures ok { IfOk result (λ v. ArePickedAfter (jump_columns a.now trans state.now.rows) (after_of (width a.now) back.now) v.items) }
    ensures passes { result ≡ Err RowFault.Passes → BackPasses (width a.now) (jump_columns a.now trans state.now.rows) back.now }
{
    let after = after_point(alloc, a.vars().len(), back)?;
    let point = jump_point(alloc, a, trans, state, &after)?;
    let numbers = lowest_of(alloc, &point)?;
    Ok(numbers)
}

/// With these numbers and this elapsed time.
fn with_more(back: Back, more: &[Frac], elapsed: Frac) -> Result<Back, AllocError>
    ensures { IfOk result (λ b. b ≡ record { numbers = back.numbers ++ more.now; elapsed = elapsed }) }
{
    let mut numbers = back.numbers;
    add_all(&mut numbers, more)?;
    Ok(Back { numbers, elapsed })
}

/// The numbers with those of a leg.
fn over_leg(
    alloc: Global,
    a: &Automaton,
    loc: u8,
    state: &System,
    back: Back,
) -> Result<Back, RowFault>
    requires known { loc < length a.now.locations }
    requires wide { state.now.width ≡ width a.now + 1 }
    requires sized { width a.now ≤ length back.numbers }
    requires reached { SomeLegEnds a.now loc state.now.rows (common_point (after_of (width a.now) back)) }
    ensures ok { IfOk result (λ b. IsLegBack a.now loc state.now.rows back b) }
    ensures passes { result ≡ Err RowFault.Passes → LegBackPasses a.now loc state.now.rows back }
{
    let first = a.vars().len() + 1;
    let numbers = leg_numbers(alloc, a, loc, state, &back)?;
    let Some(elapsed) = back.elapsed.sub(&numbers[first]) else {
        return Err(RowFault::Passes);
    };
    let more = with_more(back, from_place(numbers.as_slice(), first), elapsed)?;
    Ok(more)
}

/// Goes back over a leg in location number `loc` that starts in the state and leads to the last
/// values: its length is picked, and then the values at its start, which are inside the state.
pub fn leg_back(
    alloc: Global,
    a: &Automaton,
    loc: u8,
    state: &System,
    back: Back,
) -> Result<Back, RowFault>
    requires known { loc < length a.now.locations }
    requires wide { state.now.width ≡ width a.now + 1 }
    requires back { IsBack (width a.now) back }
    requires reached { SomeLegEnds a.now loc state.now.rows (common_point (after_of (width a.now) back)) }
    ensures ok { IfOk result (λ b. IsLegBack a.now loc state.now.rows back b) }
    ensures back { IfOk result (IsBack (width a.now)) }
    ensures inside { IfOk result (λ b. AllHold state.now.rows (common_point (after_of (width a.now) b))) }
    ensures passes { result ≡ Err RowFault.Passes → LegBackPasses a.now loc state.now.rows back }
{
    // The automaton and the rows are within their limits, as their readers say.
    a.vars();
    state.width();
    let more = over_leg(alloc, a, loc, state, back)?;
    Ok(more)
}

/// The numbers with those of a jump.
fn over_jump(
    alloc: Global,
    a: &Automaton,
    trans: u8,
    state: &System,
    back: Back,
) -> Result<Back, RowFault>
    requires known { trans < length a.now.transitions }
    requires wide { state.now.width ≡ width a.now + 1 }
    requires sized { width a.now ≤ length back.numbers }
    requires reached { SomeJumpEnds a.now trans state.now.rows (common_point (after_of (width a.now) back)) }
    ensures ok { IfOk result (λ b. IsJumpBack a.now trans state.now.rows back b) }
    ensures passes { result ≡ Err RowFault.Passes → JumpBackPasses a.now trans state.now.rows back }
{
    let first = a.vars().len() + 1;
    let numbers = jump_numbers(alloc, a, trans, state, &back)?;
    let elapsed = back.elapsed;
    let more = with_more(back, from_place(numbers.as_slice(), first), elapsed)?;
    Ok(more)
}

/// Goes back over a jump by transition number `trans` that starts in the state and leads to the
/// last values: the values before it are picked, which are inside the state.
pub fn jump_back(
    alloc: Global,
    a: &Automaton,
    trans: u8,
    state: &System,
    back: Back,
) -> Result<Back, RowFault>
    requires known { trans < length a.now.transitions }
    requires wide { state.now.width ≡ width a.now + 1 }
    requires back { IsBack (width a.now) back }
    requires reached { SomeJumpEnds a.now trans state.now.rows (common_point (after_of (width a.now) back)) }
    ensures ok { IfOk result (λ b. IsJumpBack a.now trans state.now.rows back b) }
    ensures back { IfOk result (IsBack (width a.now)) }
    ensures inside { IfOk result (λ b. AllHold state.now.rows (common_point (after_of (width a.now) b))) }
    ensures passes { result ≡ Err RowFault.Passes → JumpBackPasses a.now trans state.now.rows back }
{
    // The automaton and the rows are within their limits, as their readers say.
    a.vars();
    state.width();
    let more = over_jump(alloc, a, trans, state, back)?;
    Ok(more)
}
