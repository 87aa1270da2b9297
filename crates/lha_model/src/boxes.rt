//! Which rows are the slopes of a location: for each variable a row that bounds its slope from
//! above and one that bounds it from below.

ghost use Rattle.std.specs.Prelude.{◌≡◌, ◌≢◌, ◌↔◌, ℕ, ◌+◌, ◌*◌, ◌<◌, ◌≤◌, All, length, pos, ◌<ℤ◌, IsTrue, IsFalse};
ghost use Rattle.poly_specs.specs.Lists.{number_at};
ghost use Rattle.poly_specs.specs.Rows.{AllWide};
ghost use Rattle.run_specs.specs.WellFormed.{HasBox};

use lin_row::Row;

/// Whether each row has so many columns.
pub fn are_wide(rows: &[Row], width: usize) -> bool
    ensures { IsTrue result ↔ AllWide width rows.now }
{
    rows.iter().all(|row| row.coef().len() == width)
}

/// Whether no row has a constant or is strict.
fn are_homogeneous(rows: &[Row]) -> bool
    ensures { IsTrue result ↔ All (λ r. (r.cst ≡ pos 0) × IsFalse r.strict) rows.now }
{
    rows.iter().all(|row| row.cst() == 0 && !row.strict())
}

/// Whether the first m numbers are 0, but for the one at place j.
fn is_zero_but(numbers: &[i128], m: usize, j: usize) -> bool
    requires { m ≤ length numbers.now }
    ensures { IsTrue result ↔ ((i : ℕ) → i < m → i ≢ j → number_at i numbers.now ≡ pos 0) }
{
    for i in 0..m {
        if i != j && numbers[i] != 0 {
            return false;
        }
    }
    true
}

/// Whether rows 2j and 2j + 1 bound the slope of variable j, of m, and no other slope.
fn has_box(slopes: &[Row], m: usize, j: usize) -> bool
    requires few { m ≤ 6 }
    requires inside { j < m }
    requires boxed { 2 * m ≤ length slopes.now }
    requires wide { AllWide (m + 1) slopes.now }
    ensures { IsTrue result ↔ HasBox m slopes.now j }
{
    let above = slopes[2 * j].coef();
    let below = slopes[2 * j + 1].coef();
    above[j] > 0 && below[j] < 0 && is_zero_but(above, m, j) && is_zero_but(below, m, j)
}

/// Whether the slope of each of m variables is bounded by its rows.
fn has_boxes(slopes: &[Row], m: usize) -> bool
    requires few { m ≤ 6 }
    requires boxed { 2 * m ≤ length slopes.now }
    requires wide { AllWide (m + 1) slopes.now }
    ensures { IsTrue result ↔ ((j : ℕ) → j < m → HasBox m slopes.now j) }
{
    for j in 0..m {
        if !has_box(slopes, m, j) {
            return false;
        }
    }
    true
}

/// Whether the rows are the slopes of a location of an automaton of m variables.
pub fn are_slopes(rows: &[Row], m: usize) -> bool
    requires { m ≤ 6 }
    ensures { IsTrue result ↔ AllWide (m + 1) rows.now × All (λ r. (r.cst ≡ pos 0) × IsFalse r.strict) rows.now
        × (2 * m ≤ length rows.now) × ((j : ℕ) → j < m → HasBox m rows.now j) }
{
    are_wide(rows, m + 1) && are_homogeneous(rows) && rows.len() >= 2 * m && has_boxes(rows, m)
}
