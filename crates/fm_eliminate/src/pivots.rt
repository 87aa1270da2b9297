//! Equations: a closed row whose negation stands among the rows.

ghost use Rattle.std.specs.Prelude.{◌≡◌, ◌↔◌, ◌<◌, All, IsTrue, MatchOption, length, map, neg_ℤ};
ghost use Rattle.poly_specs.specs.Lists.{In};
ghost use Rattle.poly_specs.specs.Rows.{Row as RowValue};
ghost use Rattle.poly_specs.specs.Systems.{negated, IsEquation};
ghost use Rattle.fm_eliminate.specs.Leaving.{IsPivot};

use crate::coefficients::coefficient;
use lin_row::Row;

/// Whether the second number is the first one negated.
fn is_opposite(a: i128, b: i128) -> bool
    ensures { IsTrue result ↔ (b ≡ neg_ℤ a) }
{
    a.checked_neg() == Some(b)
}

/// Whether each number is the first list's, negated.
fn are_opposite(a: &[i128], b: &[i128]) -> bool
    ensures { IsTrue result ↔ (b.now ≡ map neg_ℤ a.now) }
{
    if a.len() != b.len() {
        return false;
    }
    for i in 0..a.len() {
        if !is_opposite(a[i], b[i]) {
            return false;
        }
    }
    true
}

/// Whether the second row is the first one with all numbers negated.
fn is_negation(a: &Row, b: &Row) -> bool
    ensures { IsTrue result ↔ (b.now ≡ negated a.now) }
{
    a.strict() == b.strict() && is_opposite(a.cst(), b.cst()) && are_opposite(a.coef(), b.coef())
}

/// The row's negation among the rows.
fn negation_of<'a>(row: &Row, rows: &'a [Row]) -> Option<&'a Row>
    ensures { MatchOption result (In (negated row.now) rows.now → ⊥) (λ s. In s.now rows.now × (s.now ≡ negated row.now)) }
{
    for other in rows {
        if is_negation(row, other) {
            return Some(other);
        }
    }
    None
}

/// The row and its negation, the lower one first, where the row is an equation in column `x`.
fn pivot_of<'a>(row: &'a Row, rows: &'a [Row], x: usize) -> Option<(&'a Row, &'a Row)>
    requires among { In row.now rows.now }
    requires within { x < length row.now.coef }
    ensures { MatchOption result (IsEquation x rows.now row.now → ⊥) (λ p. IsPivot x rows.now p.0.now p.1.now) }
{
    let coef = coefficient(row, x);
    if row.strict() || coef == 0 {
        return None;
    }
    let other = negation_of(row, rows)?;
    if coef < 0 {
        Some((row, other))
    } else {
        Some((other, row))
    }
}

/// The first equation in column `x`, as a lower row and the upper one that is its negation.
pub fn find_pivot<'a>(rows: &'a [Row], x: usize) -> Option<(&'a Row, &'a Row)>
    requires within { All (λ r. x < length r.coef) rows.now }
    ensures { MatchOption result ((r : RowValue) → IsEquation x rows.now r → ⊥) (λ p. IsPivot x rows.now p.0.now p.1.now) }
{
    for row in rows {
        let pair = pivot_of(row, rows, x);
        if pair.is_some() {
            return pair;
        }
    }
    None
}
