//! What comes before a point that a leg or a jump leads to.

ghost use Rattle.std.specs.Prelude.{◌≡◌, ◌⊎◌, ◌+◌, ◌*◌, ◌<◌, ◌≤◌, Err, IfOk, length};
ghost use Rattle.poly_specs.specs.Bits.{SomePasses};
ghost use Rattle.poly_specs.specs.Elimination.{formed_each};
ghost use Rattle.poly_specs.specs.Rows.{Point as PointValue};
ghost use Rattle.column_pick.specs.Nexts.{HasFirst};
ghost use Rattle.column_pick.specs.Picked.{numbers_of, IsPickedPoint, PickingPasses};
ghost use Rattle.run_specs.specs.Automaton.{width};
ghost use Rattle.run_specs.specs.Ends.{SomeLegEnds, SomeJumpEnds};
ghost use Rattle.run_specs.specs.Stages.{leg_rows, leg_stage, jump_rows, jump_stage};
ghost use Rattle.gap_runs.specs.Befores.{leg_columns, jump_columns, IsLegBefore, IsJumpBefore, LeavingPasses};

use crate::parts::{number_at, part_from};
use fm_eliminate::{RowFault, System};
use frac128::Frac;
use jump_succ::jump_system;
use lha_model::Automaton;
use lin_row::Point;
use poly_decide::{pick, thinned_levels};
use std::alloc::Global;
use time_succ::leg_system;

/// The point of the system that begins with these numbers, and each further number of which is
/// picked.
pub fn picked_after(alloc: Global, system: &System, first: &Point) -> Result<Point, RowFault>
    requires begins { (q : PointValue) × HasFirst system.now (numbers_of first.now) q }
    requires fits { length first.now.num ≤ system.now.width }
    ensures ok { IfOk result (λ p. IsPickedPoint system.now (numbers_of first.now) p) }
    ensures passes { result ≡ Err RowFault.Passes → LeavingPasses system.now first.now }
{
    // The point is over a positive denominator, as its readers say.
    first.den();
    let levels = thinned_levels(alloc, system, first.num().len())?;
    pick(alloc, &levels, first)
}

/// The point of the leg's system that ends at the given numbers, and is picked else.
pub fn leg_point(
    alloc: Global,
    a: &Automaton,
    loc: u8,
    state: &System,
    after: &Point,
) -> Result<Point, RowFault>
    requires known { loc < length a.now.locations }
    requires wide { state.now.width ≡ width a.now + 1 }
    requires sized { length after.now.num ≡ width a.now + 1 }
    requires reached { SomeLegEnds a.now loc state.now.rows after.now }
    ensures ok { IfOk result (λ p. IsPickedPoint (leg_columns a.now loc state.now.rows) (numbers_of after.now) p) }
    ensures passes { result ≡ Err RowFault.Passes → LeavingPasses (leg_columns a.now loc state.now.rows) after.now }
{
    // The point is over a positive denominator, as its readers say.
    after.den();
    let system = leg_system(alloc, a, loc, state)?;
    picked_after(alloc, &system, after)
}

/// The point of the jump's system that ends at the given numbers, and is picked else.
pub fn jump_point(
    alloc: Global,
    a: &Automaton,
    trans: u8,
    state: &System,
    after: &Point,
) -> Result<Point, RowFault>
    requires known { trans < length a.now.transitions }
    requires wide { state.now.width ≡ width a.now + 1 }
    requires sized { length after.now.num ≡ width a.now + 1 }
    requires reached { SomeJumpEnds a.now trans state.now.rows after.now }
    ensures ok { IfOk result (λ p. IsPickedPoint (jump_columns a.now trans state.now.rows) (numbers_of after.now) p) }
    ensures passes { result ≡ Err RowFault.Passes → LeavingPasses (jump_columns a.now trans state.now.rows) after.now }
{
    // The point is over a positive denominator, as its readers say.
    after.den();
    let system = jump_system(alloc, a, trans, state)?;
    picked_after(alloc, &system, after)
}

/// Of the legs in location number `loc` that start in the state and end at the given numbers, the
/// values and then the elapsed time: the length that is picked, and the values at the start that
/// are picked then, over their least common denominator.
///
/// `Passes` only where eliminating columns of the leg's system passes 128 bits, from the right down
/// to the length, or picking these numbers does.
pub fn leg_before(
    alloc: Global,
    a: &Automaton,
    loc: u8,
    state: &System,
    after: &Point,
) -> Result<(Frac, Point), RowFault>
    requires known { loc < length a.now.locations }
    requires wide { state.now.width ≡ width a.now + 1 }
    requires sized { length after.now.num ≡ width a.now + 1 }
    requires reached { SomeLegEnds a.now loc state.now.rows after.now }
    ensures ok { IfOk result (λ r. IsLegBefore a.now loc state.now.rows after.now r.0 r.1) }
    ensures passes { result ≡ Err RowFault.Passes → LeavingPasses (leg_columns a.now loc state.now.rows) after.now }
{
    let m = a.vars().len();
    let point = leg_point(alloc, a, loc, state, after)?;
    let start = part_from(alloc, &point, m + 2)?;
    Ok((number_at(&point, m + 1), start))
}

/// Of the jumps by transition number `trans` that start in the state and end at the given numbers,
/// the values and then the elapsed time: the values before the jump that are picked, over their
/// least common denominator.
///
/// `Passes` only where eliminating columns of the jump's system passes 128 bits, from the right down
/// to the first of these values, or picking them does.
pub fn jump_before(
    alloc: Global,
    a: &Automaton,
    trans: u8,
    state: &System,
    after: &Point,
) -> Result<Point, RowFault>
    requires known { trans < length a.now.transitions }
    requires wide { state.now.width ≡ width a.now + 1 }
    requires sized { length after.now.num ≡ width a.now + 1 }
    requires reached { SomeJumpEnds a.now trans state.now.rows after.now }
    ensures ok { IfOk result (λ p. IsJumpBefore a.now trans state.now.rows after.now p) }
    ensures passes { result ≡ Err RowFault.Passes → LeavingPasses (jump_columns a.now trans state.now.rows) after.now }
{
    let m = a.vars().len();
    let point = jump_point(alloc, a, trans, state, after)?;
    let before = part_from(alloc, &point, m + 1)?;
    Ok(before)
}
