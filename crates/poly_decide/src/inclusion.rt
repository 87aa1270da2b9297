//! Whether a system includes another one.

ghost use Rattle.std.specs.Prelude.{◌≡◌, ◌≤◌, Err, IfOk, MatchBool};
ghost use Rattle.poly_specs.specs.Bits.{SomePasses};
ghost use Rattle.poly_specs.specs.Bounds.{IsPoint, Includes, inclusion_numbers};
ghost use Rattle.poly_specs.specs.Rows.{Point, AllHold};

use crate::entailment::entails;
use fm_eliminate::{RowFault, System};
use std::alloc::Global;

/// Whether each point of the small system is in the big one.
///
/// They have the same columns, at most 13. `Passes` only where a number that it takes to bound the
/// sum of one of the big system's rows over the small one passes 128 bits.
pub fn includes(alloc: Global, big: &System, small: &System) -> Result<bool, RowFault>
    requires widths { big.now.width ≡ small.now.width }
    requires few { small.now.width ≤ 13 }
    ensures ok { IfOk result (λ b. MatchBool b (Includes small.now.width big.now.rows small.now.rows) ((p : Point) × IsPoint small.now.width small.now.rows p × (AllHold big.now.rows p → ⊥))) }
    ensures passes { result ≡ Err RowFault.Passes → SomePasses (inclusion_numbers small.now.width big.now.rows small.now.rows) }
{
    for row in big.rows() {
        if !entails(alloc, small, row)? {
            return Ok(false);
        }
    }
    Ok(true)
}
