//! Whether a state is included in one that was found before it.

ghost use Rattle.std.specs.Prelude.{◌≡◌, ◌≤◌, Any, All, IfOk, MatchBool};
ghost use Rattle.poly_specs.specs.Bounds.{Includes};
ghost use Rattle.sample_succ.specs.Covers.{AreWide, IsNotShown, DoesCover, DoesNotCover};

use crate::finding::{Found, Node};
use fm_eliminate::{RowFault, System};
use poly_decide::includes;
use std::alloc::{AllocError, Global};

/// Whether the big system is shown to include the small one. Where deciding this passes 128 bits,
/// it is not.
fn is_included(alloc: Global, big: &System, small: &System) -> Result<bool, AllocError>
    requires widths { big.now.width ≡ small.now.width }
    requires few { small.now.width ≤ 13 }
    ensures { IfOk result (λ b. MatchBool b (Includes small.now.width big.now.rows small.now.rows) (IsNotShown small.now.width big.now.rows small.now.rows)) }
{
    match includes(alloc, big, small) {
        Ok(answer) => Ok(answer),
        Err(RowFault::Passes) => Ok(false),
        Err(RowFault::Memory) => Err(AllocError),
    }
}

/// Whether the state that was found includes these rows, which belong to a node.
fn does_cover(alloc: Global, found: &Found, node: &Node, rows: &System) -> Result<bool, AllocError>
    requires widths { found.now.rows.width ≡ rows.now.width }
    requires few { rows.now.width ≤ 13 }
    ensures { IfOk result (λ b. MatchBool b (DoesCover rows.now.width node.now.loc node.now.seen_unsafe rows.now.rows found.now) (DoesNotCover rows.now.width node.now.loc node.now.seen_unsafe rows.now.rows found.now)) }
{
    if found.loc != node.loc {
        return Ok(false);
    }
    if found.seen_unsafe != node.seen_unsafe {
        return Ok(false);
    }
    is_included(alloc, &found.rows, rows)
}

/// Whether one of them does.
pub fn is_covered(
    alloc: Global,
    found: &[Found],
    node: &Node,
    rows: &System,
) -> Result<bool, AllocError>
    requires widths { AreWide rows.now.width found.now }
    requires few { rows.now.width ≤ 13 }
    ensures { IfOk result (λ b. MatchBool b (Any (DoesCover rows.now.width node.now.loc node.now.seen_unsafe rows.now.rows) found.now) (All (DoesNotCover rows.now.width node.now.loc node.now.seen_unsafe rows.now.rows) found.now)) }
{
    for state in found {
        if does_cover(alloc, state, node, rows)? {
            return Ok(true);
        }
    }
    Ok(false)
}
