//! Whether a system has a point.

ghost use Rattle.std.specs.Prelude.{◌≡◌, Err, IfOk, MatchBool};
ghost use Rattle.poly_specs.specs.Bits.{SomePasses};
ghost use Rattle.poly_specs.specs.Bounds.{emptiness_numbers};
ghost use Rattle.poly_specs.specs.Rows.{HasPoint};

use crate::thinning::thinned_left;
use fm_eliminate::{RowFault, System};
use point_hints::{Shown, show, some_never_holds};
use std::alloc::Global;

/// Whether the system has no point.
///
/// Where a point is quickly found, or multiples of rows that cannot hold together, it is decided
/// by these. Else all columns are eliminated, from the right; where many rows are left, implied
/// ones are dropped before the next column. `Passes` only where a number that plain elimination of
/// all columns forms passes 128 bits.
pub fn is_empty(alloc: Global, s: &System) -> Result<bool, RowFault>
    ensures ok { IfOk result (λ b. MatchBool b (HasPoint s.now.width s.now.rows → ⊥) (HasPoint s.now.width s.now.rows)) }
    ensures passes { result ≡ Err RowFault.Passes → SomePasses (emptiness_numbers s.now.width s.now.rows) }
{
    match show(alloc, s)? {
        Shown::Empty => Ok(true),
        Shown::Inhabited => Ok(false),
        Shown::Nothing => is_left_empty(alloc, s),
    }
}

/// Whether the system has no point, by what is left of it without any column.
fn is_left_empty(alloc: Global, s: &System) -> Result<bool, RowFault>
    ensures ok { IfOk result (λ b. MatchBool b (HasPoint s.now.width s.now.rows → ⊥) (HasPoint s.now.width s.now.rows)) }
    ensures passes { result ≡ Err RowFault.Passes → SomePasses (emptiness_numbers s.now.width s.now.rows) }
{
    let left = thinned_left(alloc, s, 0)?;
    Ok(some_never_holds(left.rows()))
}
