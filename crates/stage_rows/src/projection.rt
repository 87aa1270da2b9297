//! What is left of a system in its first columns.

ghost use Rattle.std.specs.Prelude.{◌≡◌, ◌-◌, ◌≤◌, ◌↔◌, Err, IfOk, length, pos, ◌<ℤ◌};
ghost use Rattle.poly_decide.specs.Pruned.{AreUndominated};
ghost use Rattle.poly_specs.specs.Bits.{SomePasses};
ghost use Rattle.poly_specs.specs.Elimination.{formed_each, columns_down};
ghost use Rattle.poly_specs.specs.Lists.{IsAmong};
ghost use Rattle.poly_specs.specs.Rows.{Point, AllHold};
ghost use Rattle.run_specs.specs.Stages.{rows_after};
ghost use Rattle.stage_rows.specs.Projecting.{projecting};

use fm_eliminate::{RowFault, System};
use poly_decide::{prune, thinned_left};
use std::alloc::Global;

/// What is left of a system in the columns before `first`: the others are eliminated one after the
/// other, from the right, and then cut off. It holds exactly where the rows of plain elimination
/// do, and its rows are among them. Rows that are found to be implied by others are dropped, and
/// none that is left dominates another one.
pub fn project(alloc: Global, system: &System, first: usize) -> Result<System, RowFault>
    requires { first ≤ system.now.width }
    ensures wide { IfOk result (λ s. s.width ≡ first) }
    ensures same { IfOk result (λ s. (p : Point) → pos 0 <ℤ p.den → length p.num ≡ first →
        AllHold s.rows p ↔ AllHold (rows_after (projecting first system.now)) p) }
    ensures plain { IfOk result (λ s. IsAmong s.rows (rows_after (projecting first system.now))) }
    ensures undominated { IfOk result (λ s. AreUndominated s.rows) }
    ensures passes { result ≡ Err RowFault.Passes → SomePasses (formed_each (columns_down first (system.now.width - first)) system.now.rows) }
{
    let left = cut_left(alloc, system, first)?;
    let few = prune(alloc, &left)?;
    Ok(few)
}

/// What is left in the columns before `first`, without the others, and not pruned at last.
fn cut_left(alloc: Global, system: &System, first: usize) -> Result<System, RowFault>
    requires { first ≤ system.now.width }
    ensures wide { IfOk result (λ s. s.width ≡ first) }
    ensures same { IfOk result (λ s. (p : Point) → pos 0 <ℤ p.den → length p.num ≡ first →
        AllHold s.rows p ↔ AllHold (rows_after (projecting first system.now)) p) }
    ensures plain { IfOk result (λ s. IsAmong s.rows (rows_after (projecting first system.now))) }
    ensures passes { result ≡ Err RowFault.Passes → SomePasses (formed_each (columns_down first (system.now.width - first)) system.now.rows) }
{
    // Each row has the system's width, as its readers say.
    system.width();
    let left = thinned_left(alloc, system, first)?;
    Ok(left.cut(alloc, first)?)
}
