//! The bound of a sum over the points of a system.

ghost use Rattle.std.specs.Prelude.{◌≡◌, ◌≤◌, Err, IfOk, length};
ghost use Rattle.poly_specs.specs.Bits.{SomePasses};
ghost use Rattle.poly_specs.specs.Bounds.{bound_numbers};
ghost use Rattle.poly_decide.specs.Bounded.{IsBound};

use crate::Bound;
use crate::limits::bound_of;
use crate::sums::system_with_sum;
use crate::thinning::{thinned_left, without_column};
use fm_eliminate::{RowFault, System};
use lin_row::Row;
use std::alloc::Global;

/// The bound of the row's sum from above, its constant included, over the system's points.
///
/// The row has the system's columns, at most 13. A new column 0 that equals the sum is added in
/// front, and all others are eliminated, from the right; where many rows are left, implied ones are
/// dropped before the next column. `Passes` only where a number that plain elimination of all
/// columns forms passes 128 bits.
pub fn sup(alloc: Global, s: &System, row: &Row) -> Result<Bound, RowFault>
    requires width { length row.now.coef ≡ s.now.width }
    requires few { s.now.width ≤ 13 }
    ensures ok { IfOk result (λ b. IsBound s.now.width s.now.rows row.now b) }
    ensures passes { result ≡ Err RowFault.Passes → SomePasses (bound_numbers s.now.width s.now.rows row.now) }
{
    let system = system_with_sum(alloc, s, row)?;
    let first = thinned_left(alloc, &system, 1)?;
    let none = without_column(alloc, &system, &first, 0)?;
    Ok(bound_of(none.rows(), first.rows()))
}
