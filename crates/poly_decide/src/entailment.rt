//! Whether a row holds at each point of a system.

ghost use Rattle.std.specs.Prelude.{◌≡◌, ◌≤◌, Err, IfOk, MatchBool, length};
ghost use Rattle.poly_specs.specs.Bits.{SomePasses};
ghost use Rattle.poly_specs.specs.Bounds.{IsPoint, Entails, bound_numbers};
ghost use Rattle.poly_specs.specs.Rows.{Point, Holds};

use crate::bounds::sup;
use crate::limits::is_allowed;
use crate::outside::shown_outside;
use crate::pruning::is_dominated;
use fm_eliminate::{RowFault, System};
use lin_row::Row;
use point_hints::Shown;
use std::alloc::Global;

/// Whether the row holds at each point of the system.
///
/// The row has the system's columns, at most 13. Where one of the system's rows dominates it, it
/// does. Where a point that the row leaves out is quickly found, or shown not to be there, that
/// decides; else the bound of the row's sum. `Passes` only where a number that plain elimination
/// forms for this bound passes 128 bits.
pub fn entails(alloc: Global, s: &System, row: &Row) -> Result<bool, RowFault>
    requires width { length row.now.coef ≡ s.now.width }
    requires few { s.now.width ≤ 13 }
    ensures ok { IfOk result (λ b. MatchBool b (Entails s.now.width s.now.rows row.now) ((p : Point) × IsPoint s.now.width s.now.rows p × (Holds row.now p → ⊥))) }
    ensures passes { result ≡ Err RowFault.Passes → SomePasses (bound_numbers s.now.width s.now.rows row.now) }
{
    if is_dominated(row, s.rows()) {
        return Ok(true);
    }
    is_inside(alloc, s, row)
}

/// Whether the row holds at each point of the system, by a point that it leaves out, if one or that
/// there is none is quickly shown, and else by the bound of its sum.
fn is_inside(alloc: Global, s: &System, row: &Row) -> Result<bool, RowFault>
    requires width { length row.now.coef ≡ s.now.width }
    requires few { s.now.width ≤ 13 }
    ensures ok { IfOk result (λ b. MatchBool b (Entails s.now.width s.now.rows row.now) ((p : Point) × IsPoint s.now.width s.now.rows p × (Holds row.now p → ⊥))) }
    ensures passes { result ≡ Err RowFault.Passes → SomePasses (bound_numbers s.now.width s.now.rows row.now) }
{
    match shown_outside(alloc, s.width(), s.rows(), row)? {
        Shown::Empty => Ok(true),
        Shown::Inhabited => Ok(false),
        Shown::Nothing => bound_tells(alloc, s, row),
    }
}

/// Whether the row holds at each point of the system, by the bound of its sum.
fn bound_tells(alloc: Global, s: &System, row: &Row) -> Result<bool, RowFault>
    requires width { length row.now.coef ≡ s.now.width }
    requires few { s.now.width ≤ 13 }
    ensures ok { IfOk result (λ b. MatchBool b (Entails s.now.width s.now.rows row.now) ((p : Point) × IsPoint s.now.width s.now.rows p × (Holds row.now p → ⊥))) }
    ensures passes { result ≡ Err RowFault.Passes → SomePasses (bound_numbers s.now.width s.now.rows row.now) }
{
    let bound = sup(alloc, s, row)?;
    Ok(is_allowed(&bound, row.strict()))
}
