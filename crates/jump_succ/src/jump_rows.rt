//! The rows of a jump's system. Columns: the values after, the elapsed time, the values before;
//! `m` is the number of variables.

ghost use Rattle.std.specs.Prelude.{◌≡◌, ◌+◌, ◌≤◌, ◌++◌, OnOk, length, map};
ghost use Rattle.poly_specs.specs.Rows.{AllWide};
ghost use Rattle.run_specs.specs.Stages.{jump_before, jump_related, jump_inside_after};

use lin_row::Row;
use stage_rows::{joined, zeros};
use std::alloc::{AllocError, Global};

/// Adds the state's rows, on the values before.
pub fn add_state(
    alloc: Global,
    rows: &mut Vec<Row>,
    state: &[Row],
    m: usize,
) -> Result<(), AllocError>
    requires few { m ≤ 6 }
    requires wide { AllWide (m + 1) state.now }
    ensures { OnOk result (rows.new.items ≡ rows.old.items ++ map (jump_before m) state.now) }
{
    for row in state {
        rows.push(before(alloc, row, m))?;
    }
    Ok(())
}

/// Adds the transition's rows, which are over the values before and then those after.
pub fn add_relation(
    alloc: Global,
    rows: &mut Vec<Row>,
    relation: &[Row],
    m: usize,
) -> Result<(), AllocError>
    requires few { m ≤ 6 }
    requires wide { AllWide (m + m) relation.now }
    ensures { OnOk result (rows.new.items ≡ rows.old.items ++ map (jump_related m) relation.now) }
{
    for row in relation {
        rows.push(related(alloc, row, m))?;
    }
    Ok(())
}

/// Adds the rows of the target's invariant, on the values after.
pub fn add_invariant(
    alloc: Global,
    rows: &mut Vec<Row>,
    inside: &[Row],
    m: usize,
) -> Result<(), AllocError>
    requires few { m ≤ 6 }
    requires wide { AllWide m inside.now }
    ensures { OnOk result (rows.new.items ≡ rows.old.items ++ map (jump_inside_after m) inside.now) }
{
    for row in inside {
        rows.push(inside_after(alloc, row, m))?;
    }
    Ok(())
}

/// A row of the state, on the values before.
fn before(alloc: Global, row: &Row, m: usize) -> Row
    requires few { m ≤ 6 }
    requires wide { length row.now.coef ≡ m + 1 }
    ensures { result ≡ jump_before m row.now }
{
    let coef = row.coef();
    let none = zeros(alloc, m);
    joined(alloc, row, none.as_slice(), &[coef[m]], &coef[..m])
}

/// A row of the transition.
fn related(alloc: Global, row: &Row, m: usize) -> Row
    requires few { m ≤ 6 }
    requires wide { length row.now.coef ≡ m + m }
    ensures { result ≡ jump_related m row.now }
{
    let coef = row.coef();
    joined(alloc, row, &coef[m..], &[0], &coef[..m])
}

/// A row of the target's invariant, on the values after.
fn inside_after(alloc: Global, row: &Row, m: usize) -> Row
    requires few { m ≤ 6 }
    requires wide { length row.now.coef ≡ m }
    ensures { result ≡ jump_inside_after m row.now }
{
    let none = zeros(alloc, m + 1);
    joined(alloc, row, row.coef(), &[], none.as_slice())
}
