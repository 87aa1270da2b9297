//! Whether a path ends the gap at all, asked of its last leg and the sample together: no column is eliminated for that.

ghost use Rattle.std.specs.Prelude.{◌≡◌, ◌+◌, ◌*◌, ◌<◌, ◌≤◌, IfOk, IsTrue, length, map};
ghost use Rattle.poly_specs.specs.Rows.{Point as PointValue, AllWide, HasPoint};
ghost use Rattle.run_specs.specs.Automaton.{width};
ghost use Rattle.run_specs.specs.Outcomes.{IsEnd};
ghost use Rattle.sample_succ.specs.LastLegs.{at_leg_end, sample_at_end, last_system};
ghost use Rattle.sample_succ.specs.Walks.{IsNode};

use crate::finding::Node;
use crate::sample_rows::added_rows;
use crate::stepping::automaton_of;
use fm_eliminate::{RowFault, System};
use gap_keys::Key;
use lin_row::Row;
use poly_decide::{Shown, show};
use stage_rows::{joined, zeros};
use std::alloc::{AllocError, Global};
use time_succ::leg_system;

/// Whether no run along the node's path is shown to end the gap. Where this is not shown, nothing is said.
pub fn never_ends(alloc: Global, key: &Key, node: &Node) -> Result<bool, AllocError>
    requires node { IsNode key.now node.now }
    ensures { IfOk result (λ b. IsTrue b → (q : PointValue) → IsEnd key.now node.now.parent node.now.path.items q → ⊥) }
{
    // What a key keeps, and each row's width, as readers say.
    automaton_of(key);
    node.before.width();
    match with_sample(alloc, key, node.loc, &node.before) {
        Ok(system) => is_shown_empty(alloc, &system),
        Err(RowFault::Passes) => Ok(false),
        Err(RowFault::Memory) => Err(AllocError),
    }
}

/// Whether the system is shown to have no point.
fn is_shown_empty(alloc: Global, system: &System) -> Result<bool, AllocError>
    ensures { IfOk result (λ b. IsTrue b → HasPoint system.now.width system.now.rows → ⊥) }
{
    match show(alloc, system)? {
        Shown::Empty => Ok(true),
        Shown::Inhabited => Ok(false),
        Shown::Nothing => Ok(false),
    }
}

/// The system of a leg, and then the rows of the sample at its end.
fn with_sample(alloc: Global, key: &Key, loc: u8, before: &System) -> Result<System, RowFault>
    requires known { loc < length key.now.automaton.locations }
    requires wide { before.now.width ≡ width key.now.automaton + 1 }
    ensures { IfOk result (λ s. s ≡ last_system key.now loc before.now.rows) }
{
    let rows = sample_rows(alloc, key)?;
    let mut system = leg_system(alloc, automaton_of(key), loc, before)?;
    system.and(rows.as_slice())?;
    Ok(system)
}

/// The rows of the sample, at the end of a leg.
fn sample_rows(alloc: Global, key: &Key) -> Result<Vec<Row>, RowFault>
    ensures rows { IfOk result (λ v. v.items ≡ sample_at_end key.now) }
    ensures wide { IfOk result (λ v. AllWide (2 * width key.now.automaton + 2) v.items) }
{
    let a = automaton_of(key);
    let rows = added_rows(alloc, a, key.gap(), key.seen())?;
    let moved = at_end(alloc, rows.as_slice(), a.vars().len())?;
    Ok(moved)
}

/// The rows at the end of a leg of so many variables.
fn at_end(alloc: Global, rows: &[Row], m: usize) -> Result<Vec<Row>, AllocError>
    requires few { m ≤ 6 }
    requires wide { AllWide (m + 1) rows.now }
    ensures { IfOk result (λ v. v.items ≡ map (at_leg_end m) rows.now) }
{
    let mut moved = Vec::new(alloc);
    for row in rows {
        moved.push(row_at_end(alloc, row, m))?;
    }
    Ok(moved)
}

fn row_at_end(alloc: Global, row: &Row, m: usize) -> Row
    requires few { m ≤ 6 }
    requires wide { length row.now.coef ≡ m + 1 }
    ensures { result ≡ at_leg_end m row.now }
{
    let none = zeros(alloc, m + 1);
    joined(alloc, row, row.coef(), &[], none.as_slice())
}
