//! The range of numbers that rows leave for a column.

ghost use Rattle.std.specs.Prelude.{◌≡◌, ◌<◌, ◌||◌, ◌++◌, ◌∷◌, [], List, Some, None, IfSome, length, pos, ◌<ℤ◌, neg_ℤ};
ghost use Rattle.poly_specs.specs.Arithmetic.{lowest};
ghost use Rattle.poly_specs.specs.Bits.{FitsBits, SomePasses};
ghost use Rattle.poly_specs.specs.Evaluation.{eval_numbers};
ghost use Rattle.poly_specs.specs.KeptRows.{IsKeptPoint};
ghost use Rattle.poly_specs.specs.Lists.{In};
ghost use Rattle.poly_specs.specs.Rows.{Row as RowValue, AllWide, row_value, coef_at};
ghost use Rattle.column_pick.specs.Ranges.{IsCapOf, IsLesser, IsNarrowed, IsRangeOf};

use crate::parts::see_kept;
use frac128::Frac;
use lin_row::{Point, Row};
use std::cmp::Ordering;

/// The numbers up to an end, which is not one of them where it is open. What the end is divided
/// by is known to the caller.
#[derive(Clone, Copy)]
pub struct Cap {
    pub end: Frac,
    pub is_open: bool,
}

/// The numbers that are within the one cap, and whose opposites are within the other.
#[derive(Clone, Copy)]
pub struct Range {
    pub up: Option<Cap>,
    pub down: Option<Cap>,
}

pub fn negated(number: i128) -> i128
    requires { FitsBits number }
    ensures value { result ≡ neg_ℤ number }
    ensures fits { FitsBits result }
{
    -number
}

/// The numbers that both caps have.
fn lesser(a: &Cap, b: &Cap) -> Cap
    ensures { IsLesser (Some a.now) (Some b.now) (Some result) }
{
    see_kept(&a.end);
    see_kept(&b.end);
    match a.end.cmp(&b.end) {
        Ordering::Less => Cap {
            end: a.end,
            is_open: a.is_open,
        },
        Ordering::Greater => Cap {
            end: b.end,
            is_open: b.is_open,
        },
        Ordering::Equal => Cap {
            end: a.end,
            is_open: a.is_open | b.is_open,
        },
    }
}

/// The numbers of a cap that another has too.
fn with_cap(cap: &Option<Cap>, other: &Cap) -> Option<Cap>
    ensures { IsLesser cap.now (Some other.now) result }
{
    match cap {
        None => Some(Cap {
            end: other.end,
            is_open: other.is_open,
        }),
        Some(first) => Some(lesser(first, other)),
    }
}

/// The numbers at which a multiple and a constant have a sum of at most 0, or below it.
fn cap_of(lead: i128, cst: i128, strict: bool) -> Cap
    requires positive { pos 0 <ℤ lead }
    requires fits { FitsBits cst }
    ensures { IsCapOf lead cst strict result }
{
    Cap {
        end: Frac::make(negated(cst), lead),
        is_open: strict,
    }
}

/// The numbers of the range at which a multiple and a constant have a sum of at most 0, or below
/// it. A multiple by 0 sets no end.
fn with_line(range: &Range, lead: i128, cst: i128, strict: bool) -> Range
    requires lead_fits { FitsBits lead }
    requires cst_fits { FitsBits cst }
    ensures { IsNarrowed range.now lead cst strict result }
{
    if lead > 0 {
        let cap = cap_of(lead, cst, strict);
        return Range {
            up: with_cap(&range.up, &cap),
            down: range.down,
        };
    }
    if lead < 0 {
        let cap = cap_of(negated(lead), cst, strict);
        return Range {
            up: range.up,
            down: with_cap(&range.down, &cap),
        };
    }
    Range {
        up: range.up,
        down: range.down,
    }
}

fn coefficient(row: &Row, x: usize) -> i128
    requires { x < length row.now.coef }
    ensures value { result ≡ coef_at x row.now }
    ensures fits { FitsBits result }
{
    row.coef()[x]
}

/// The row's sum at the point, times its denominator. `None` where evaluating it passes 128 bits.
fn value_at(row: &Row, point: &Point) -> Option<i128>
    requires { length point.now.num ≡ length row.now.coef }
    ensures some { IfSome result (λ v. (v ≡ row_value row.now point.now) × FitsBits v) }
    ensures none { result ≡ None → SomePasses (eval_numbers row.now point.now.num point.now.den) }
{
    row.eval(point.num(), point.den())
}

/// The numbers of the range that a row leaves for column `x` of the point, in which it has 0.
/// `None` where evaluating the row passes 128 bits.
fn with_row(range: &Range, row: &Row, point: &Point, x: usize) -> Option<Range>
    requires sized { length point.now.num ≡ length row.now.coef }
    requires within { x < length row.now.coef }
    ensures some { IfSome result (λ r. (rows : List RowValue) → IsRangeOf x point.now rows range.now → IsRangeOf x point.now (rows ++ row.now ∷ []) r) }
    ensures none { result ≡ None → SomePasses (eval_numbers row.now point.now.num point.now.den) }
{
    let value = value_at(row, point)?;
    let lead = coefficient(row, x);
    see_kept_point(point);
    Some(with_line(range, lead, value, row.strict()))
}

/// The point is kept, which its readers say: there is nothing to run.
pub fn see_kept_point(point: &Point)
    ensures { IsKeptPoint point.now }
{
    point.den();
}

/// The range that rows leave for column `x` of the point, in which it has 0. `None` where
/// evaluating a row passes 128 bits.
pub fn range_at(rows: &[Row], point: &Point, x: usize) -> Option<Range>
    requires wide { AllWide (length point.now.num) rows.now }
    requires within { x < length point.now.num }
    ensures some { IfSome result (λ r. IsRangeOf x point.now rows.now r) }
    ensures none { result ≡ None → (r : RowValue) × In r rows.now × SomePasses (eval_numbers r point.now.num point.now.den) }
{
    let mut range = Range {
        up: None,
        down: None,
    };
    for row in rows {
        range = with_row(&range, row, point, x)?;
    }
    Some(range)
}
