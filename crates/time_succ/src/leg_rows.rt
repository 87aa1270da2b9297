//! The rows of a leg's system. Columns: the values at the end, the elapsed time there, the length,
//! the values at the start; `m` is the number of variables.

ghost use Rattle.std.specs.Prelude.{◌≡◌, ◌+◌, ◌*◌, ◌≤◌, ◌++◌, ◌∷◌, OnOk, length, map, negsuc, pos};
ghost use Rattle.poly_specs.specs.Rows.{AllWide};
ghost use Rattle.run_specs.specs.Stages.{leg_before, leg_inside_before, leg_inside_after, leg_slope, row_of};

use lin_row::Row;
use stage_rows::{joined, negated, only, opposite, zeros};
use std::alloc::{AllocError, Global};

/// Adds the state's rows: at the start, where the elapsed time is that at the end without the
/// length.
pub fn add_state(
    alloc: Global,
    rows: &mut Vec<Row>,
    state: &[Row],
    m: usize,
) -> Result<(), AllocError>
    requires few { m ≤ 6 }
    requires wide { AllWide (m + 1) state.now }
    ensures { OnOk result (rows.new.items ≡ rows.old.items ++ map (leg_before m) state.now) }
{
    for row in state {
        rows.push(before(alloc, row, m))?;
    }
    Ok(())
}

/// Adds the invariant's rows: at the start, and then at the end.
pub fn add_invariant(
    alloc: Global,
    rows: &mut Vec<Row>,
    inside: &[Row],
    m: usize,
) -> Result<(), AllocError>
    requires few { m ≤ 6 }
    requires wide { AllWide m inside.now }
    ensures { OnOk result (rows.new.items ≡ rows.old.items ++ map (leg_inside_before m) inside.now ++ map (leg_inside_after m) inside.now) }
{
    add_inside_before(alloc, rows, inside, m)?;
    add_inside_after(alloc, rows, inside, m)
}

/// Adds the row of a length of at least 0, and the rows of the slopes.
pub fn add_flow(
    alloc: Global,
    rows: &mut Vec<Row>,
    slopes: &[Row],
    m: usize,
) -> Result<(), AllocError>
    requires few { m ≤ 6 }
    requires wide { AllWide (m + 1) slopes.now }
    ensures { OnOk result (rows.new.items ≡ rows.old.items ++ row_of (2 * m + 2) (m + 1) (negsuc 0) (pos 0) ∷ map (leg_slope m) slopes.now) }
{
    rows.push(lasting(alloc, m))?;
    add_slopes(alloc, rows, slopes, m)
}

fn add_inside_before(
    alloc: Global,
    rows: &mut Vec<Row>,
    inside: &[Row],
    m: usize,
) -> Result<(), AllocError>
    requires few { m ≤ 6 }
    requires wide { AllWide m inside.now }
    ensures { OnOk result (rows.new.items ≡ rows.old.items ++ map (leg_inside_before m) inside.now) }
{
    for row in inside {
        rows.push(inside_before(alloc, row, m))?;
    }
    Ok(())
}

fn add_inside_after(
    alloc: Global,
    rows: &mut Vec<Row>,
    inside: &[Row],
    m: usize,
) -> Result<(), AllocError>
    requires few { m ≤ 6 }
    requires wide { AllWide m inside.now }
    ensures { OnOk result (rows.new.items ≡ rows.old.items ++ map (leg_inside_after m) inside.now) }
{
    for row in inside {
        rows.push(inside_after(alloc, row, m))?;
    }
    Ok(())
}

fn add_slopes(
    alloc: Global,
    rows: &mut Vec<Row>,
    slopes: &[Row],
    m: usize,
) -> Result<(), AllocError>
    requires few { m ≤ 6 }
    requires wide { AllWide (m + 1) slopes.now }
    ensures { OnOk result (rows.new.items ≡ rows.old.items ++ map (leg_slope m) slopes.now) }
{
    for row in slopes {
        rows.push(slope(alloc, row, m))?;
    }
    Ok(())
}

/// A row of the state, where the elapsed time is that at the end without the length.
fn before(alloc: Global, row: &Row, m: usize) -> Row
    requires few { m ≤ 6 }
    requires wide { length row.now.coef ≡ m + 1 }
    ensures { result ≡ leg_before m row.now }
{
    let coef = row.coef();
    let elapsed = coef[m];
    let none = zeros(alloc, m);
    joined(
        alloc,
        row,
        none.as_slice(),
        &[elapsed, opposite(elapsed)],
        &coef[..m],
    )
}

/// A row of the invariant, at the start.
fn inside_before(alloc: Global, row: &Row, m: usize) -> Row
    requires few { m ≤ 6 }
    requires wide { length row.now.coef ≡ m }
    ensures { result ≡ leg_inside_before m row.now }
{
    let none = zeros(alloc, m + 2);
    joined(alloc, row, none.as_slice(), &[], row.coef())
}

/// A row of the invariant, at the end.
fn inside_after(alloc: Global, row: &Row, m: usize) -> Row
    requires few { m ≤ 6 }
    requires wide { length row.now.coef ≡ m }
    ensures { result ≡ leg_inside_after m row.now }
{
    let none = zeros(alloc, m + 2);
    joined(alloc, row, row.coef(), &[], none.as_slice())
}

/// A row of the slopes, where each is the difference of the values and the duration is the length.
fn slope(alloc: Global, row: &Row, m: usize) -> Row
    requires few { m ≤ 6 }
    requires wide { length row.now.coef ≡ m + 1 }
    ensures { result ≡ leg_slope m row.now }
{
    let coef = row.coef();
    let start = negated(alloc, &coef[..m]);
    joined(alloc, row, &coef[..m], &[0, coef[m]], start.as_slice())
}

/// The row that the length is at least 0.
fn lasting(alloc: Global, m: usize) -> Row
    requires { m ≤ 6 }
    ensures { result ≡ row_of (2 * m + 2) (m + 1) (negsuc 0) (pos 0) }
{
    let coef = only(alloc, 2 * m + 2, m + 1, -1);
    Row::make(alloc, coef.as_slice(), 0)
}
