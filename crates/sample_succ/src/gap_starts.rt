//! The start of a gap: a state before it, when no time has elapsed.

ghost use Rattle.std.specs.Prelude.{◌≡◌, ◌+◌, ◌<◌, ◌≤◌, ◌++◌, ◌||◌, [], ◌∷◌, IfOk, OnOk, length, map, take, pos, negsuc};
ghost use Rattle.poly_specs.specs.Rows.{AllWide, with_coef};
ghost use Rattle.run_specs.specs.Automaton.{width};
ghost use Rattle.run_specs.specs.Keys.{IsState, parent_at};
ghost use Rattle.run_specs.specs.Stages.{row_of, gap_start};
ghost use Rattle.sample_succ.specs.Walks.{IsNode};

use crate::finding::Node;
use crate::gap_walk::is_unsafe;
use crate::stepping::automaton_of;
use fm_eliminate::System;
use gap_keys::{Key, State};
use lin_row::Row;
use stage_rows::{joined, of_rows, only};
use std::alloc::{AllocError, Global};

/// The row with a column for the elapsed time.
fn timed(alloc: Global, row: &Row, m: usize) -> Row
    requires few { m ≤ 6 }
    requires wide { length row.now.coef ≡ m }
    ensures { result ≡ with_coef (take m row.now.coef ++ pos 0 ∷ []) row.now }
{
    let coef = row.coef();
    joined(alloc, row, &[], &coef[..m], &[0])
}

/// The row that the elapsed time is at most 0.
fn no_more(alloc: Global, m: usize) -> Row
    requires { m ≤ 6 }
    ensures { result ≡ row_of (m + 1) m (pos 1) (pos 0) }
{
    let coef = only(alloc, m + 1, m, 1);
    Row::make(alloc, coef.as_slice(), 0)
}

/// The row that it is at least 0.
fn no_less(alloc: Global, m: usize) -> Row
    requires { m ≤ 6 }
    ensures { result ≡ row_of (m + 1) m (negsuc 0) (pos 0) }
{
    let coef = only(alloc, m + 1, m, -1);
    Row::make(alloc, coef.as_slice(), 0)
}

/// Adds the rows, each with a column for the elapsed time.
fn add_timed(alloc: Global, all: &mut Vec<Row>, rows: &[Row], m: usize) -> Result<(), AllocError>
    requires few { m ≤ 6 }
    requires wide { AllWide m rows.now }
    ensures { OnOk result (all.new.items ≡ all.old.items ++ map (λ r. with_coef (take m r.coef ++ pos 0 ∷ []) r) rows.now) }
{
    for row in rows {
        all.push(timed(alloc, row, m))?;
    }
    Ok(())
}

/// The rows at the start of a gap.
fn start_rows(alloc: Global, rows: &[Row], m: usize) -> Result<Vec<Row>, AllocError>
    requires few { m ≤ 6 }
    requires wide { AllWide m rows.now }
    ensures { IfOk result (λ v. v.items ≡ gap_start m rows.now) }
{
    let mut all = Vec::new(alloc);
    add_timed(alloc, &mut all, rows, m)?;
    all.push(no_more(alloc, m))?;
    all.push(no_less(alloc, m))?;
    Ok(all)
}

/// The state before the gap of this number. Its system is over the automaton's variables.
pub fn parent_of(key: &Key, parent: usize) -> &State
    requires known { parent < length key.now.belief }
    ensures value { result.now.state ≡ parent_at key.now parent }
    ensures wide { result.now.width ≡ width key.now.automaton }
    ensures kept { IsState key.now.automaton (parent_at key.now parent) }
{
    &key.belief().states()[parent]
}

/// Where runs may stand at the start of the gap, in the state before it of this number.
pub fn start_system(alloc: Global, key: &Key, parent: usize) -> Result<System, AllocError>
    requires known { parent < length key.now.belief }
    ensures { IfOk result (λ s. s ≡ record { width = width key.now.automaton + 1; rows = gap_start (width key.now.automaton) (parent_at key.now parent).rows }) }
{
    let a = automaton_of(key);
    let m = a.vars().len();
    let state = parent_of(key, parent);
    let before = state.system();
    let old = before.rows();
    let rows = start_rows(alloc, old, m)?;
    Ok(of_rows(m + 1, rows))
}

fn either(first: bool, second: bool) -> bool
    ensures { result ≡ (first || second) }
{
    first || second
}

/// The node where a walk from this state begins.
pub fn start_node(alloc: Global, key: &Key, parent: usize) -> Result<Node, AllocError>
    requires known { parent < length key.now.belief }
    ensures parent { IfOk result (λ n. n.parent ≡ parent) }
    ensures path { IfOk result (λ n. n.path.items ≡ []) }
    ensures node { IfOk result (λ n. IsNode key.now n) }
{
    let before = start_system(alloc, key, parent)?;
    let state = parent_of(key, parent);
    let loc = state.loc();
    let seen_unsafe = either(state.seen_unsafe(), is_unsafe(key, loc));
    let path = Vec::new(alloc);
    Ok(Node {
        parent,
        path,
        loc,
        seen_unsafe,
        before,
    })
}
