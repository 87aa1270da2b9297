//! The part of a run in one gap, made of its numbers.

ghost use Rattle.std.specs.Prelude.{◌≡◌, ◌+◌, ◌*◌, ◌-◌, ◌≤◌, ◌++◌, ◌∷◌, [], IfOk, OnOk, drop, length, take};
ghost use Rattle.run_specs.specs.Runs as runs;
ghost use Rattle.gap_runs.specs.Shapes as shapes;
ghost use Rattle.gap_runs.specs.Shapes.{step, shaped};

use lha_model::{GapRun, Leg, Move};
use lin_row::Point;
use std::alloc::{AllocError, Global};

fn copied(alloc: Global, nums: &[i128]) -> Result<Vec<i128>, AllocError>
    ensures { IfOk result (λ v. v.items ≡ nums.now) }
{
    let mut copies = Vec::new(alloc);
    copies.extend_from_slice(nums)?;
    Ok(copies)
}

/// So many numbers from a place on.
fn slice_of(nums: &[i128], from: usize, count: usize) -> &[i128]
    requires { from + count ≤ length nums.now }
    ensures { result.now ≡ take count (drop from nums.now) }
{
    &nums[from..from + count]
}

/// A copy of so many numbers from a place on.
fn part_of(alloc: Global, nums: &[i128], from: usize, count: usize) -> Result<Vec<i128>, AllocError>
    requires { from + count ≤ length nums.now }
    ensures { IfOk result (λ v. v.items ≡ take count (drop from nums.now)) }
{
    copied(alloc, slice_of(nums, from, count))
}

/// The leg whose values at the end stand from this place on, and then its length.
fn leg_at(alloc: Global, m: usize, nums: &[i128], from: usize) -> Result<Leg, AllocError>
    requires { from + m + 1 ≤ length nums.now }
    ensures { IfOk result (λ l. l ≡ shapes.leg_at m nums.now from) }
{
    let at_end = part_of(alloc, nums, from, m)?;
    Ok(Leg::new(nums[from + m], at_end))
}

/// The move by this transition whose leg stands from this place on, after the values after the move.
fn move_at(
    alloc: Global,
    m: usize,
    nums: &[i128],
    trans: u8,
    from: usize,
) -> Result<Move, AllocError>
    requires within { from + m + 1 ≤ length nums.now }
    requires after { m ≤ from }
    ensures { IfOk result (λ v. v ≡ record { leg = shapes.leg_at m nums.now from; transition = trans; after = take m (drop (from - m) nums.now) }) }
{
    let leg = leg_at(alloc, m, nums, from)?;
    let after = part_of(alloc, nums, from - m, m)?;
    Ok(Move::new(leg, trans, after))
}

/// Appends a move.
fn add_move(
    alloc: Global,
    moves: &mut Vec<Move>,
    m: usize,
    nums: &[i128],
    trans: u8,
    left: usize,
) -> Result<(), AllocError>
    requires few { m ≤ 6 }
    requires within { (left + 2) * step m ≤ length nums.now }
    ensures { OnOk result (moves.new.items ≡ moves.old.items ++ shapes.move_at m nums.now trans left ∷ []) }
{
    let next = move_at(alloc, m, nums, trans, (left + 1) * (2 * m + 1))?;
    moves.push(next)?;
    Ok(())
}

/// The moves along a path, over these numbers: they stand backwards.
fn moves_of(alloc: Global, m: usize, path: &[u8], nums: &[i128]) -> Result<Vec<Move>, AllocError>
    requires few { m ≤ 6 }
    requires within { (length path.now + 1) * step m ≤ length nums.now }
    ensures { IfOk result (λ v. v.items ≡ shapes.moves_of m path.now nums.now) }
{
    let mut moves = Vec::new(alloc);
    for i in 0..path.len() {
        add_move(alloc, &mut moves, m, nums, path[i], path.len() - i - 1)?;
    }
    Ok(moves)
}

/// The part of a run that starts in a location and goes along a path. Its numbers stand in the
/// order in which they are picked: the last values, and then backwards of each leg its length and
/// the values at its start, of each jump the values before it.
pub fn gap_run_of(
    alloc: Global,
    m: usize,
    loc: u8,
    path: &[u8],
    numbers: &Point,
) -> Result<GapRun, AllocError>
    requires few { m ≤ 6 }
    requires sized { length numbers.now.num ≡ (length path.now + 1) * step m }
    ensures { IfOk result (λ g. g ≡ shaped m loc path.now numbers.now) }
{
    let nums = numbers.num();
    let moves = moves_of(alloc, m, path, nums)?;
    let last = leg_at(alloc, m, nums, 0)?;
    let start = part_of(alloc, nums, nums.len() - m, m)?;
    Ok(GapRun::new(numbers.den(), start, loc, moves, last))
}
