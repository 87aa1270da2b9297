//! Whether a system holds at a point.

ghost use Rattle.std.specs.Prelude.{◌≡◌, ◌<◌, IsTrue, ◌↔◌, length, Option};
ghost use Rattle.poly_specs.specs.Rows.{AllWide, Allows};
ghost use Rattle.poly_specs.specs.Systems.{IsHeld};
ghost use Rattle.fm_eliminate.specs.Holding.{IsRowHeld};

use crate::System;
use lin_row::{Point, Row};

impl System {
    /// Whether the system holds at the point: row by row, up to the first one that does not hold
    /// or whose evaluation passes 128 bits, where the answer is `None`. Takes no memory.
    pub fn holds(&self, at: &Point) -> Option<bool>
        requires { length at.now.num ≡ self.now.width }
        ensures { IsHeld self.now.rows at.now result }
    {
        rows_hold(self.rows(), at)
    }
}

fn rows_hold(rows: &[Row], at: &Point) -> Option<bool>
    requires { AllWide (length at.now.num) rows.now }
    ensures { IsHeld rows.now at.now result }
{
    for row in rows {
        match row_holds(row, at) {
            None => return None,
            Some(false) => return Some(false),
            Some(true) => {}
        }
    }
    Some(true)
}

/// Whether a sum is allowed: at most 0, or below 0 where the row is strict.
fn is_allowed(strict: bool, sum: i128) -> bool
    ensures { IsTrue result ↔ Allows strict sum }
{
    if strict { sum < 0 } else { sum <= 0 }
}

/// Whether the row holds. `None` where its evaluation passes 128 bits.
fn row_holds(row: &Row, at: &Point) -> Option<bool>
    requires { length at.now.num ≡ length row.now.coef }
    ensures { IsRowHeld row.now at.now result }
{
    match row.eval(at.num(), at.den()) {
        None => None,
        Some(sum) => Some(is_allowed(row.strict(), sum)),
    }
}
