//! Whether rows hold at numbers over a denominator.

ghost use Rattle.std.specs.Prelude.{◌≡◌, ◌↔◌, [], ◌∷◌, length, pos, ◌<ℤ◌, IsTrue};
ghost use Rattle.poly_specs.specs.Rows.{AllWide, Allows};
ghost use Rattle.replay_specs.specs.RunChecks.{Answers, row_steps};

use lin_row::Row;
use replay_specs::checks::Stop;

/// Whether a row with this mark allows this sum.
fn is_allowed(strict: bool, sum: i128) -> bool
    ensures { IsTrue result ↔ Allows strict sum }
{
    if strict { sum < 0 } else { sum <= 0 }
}

/// Asks that the row holds.
fn row_holds(row: &Row, num: &[i128], den: i128) -> Result<(), Stop>
    requires sized { length num.now ≡ length row.now.coef }
    requires positive { pos 0 <ℤ den }
    ensures { Answers (row_steps (row.now ∷ []) den num.now) result }
{
    let Some(sum) = row.eval(num, den) else {
        return Err(Stop::Passes);
    };
    if !is_allowed(row.strict(), sum) {
        return Err(Stop::Fails);
    }
    Ok(())
}

/// Asks that the rows hold, in order.
pub fn rows_hold(rows: &[Row], num: &[i128], den: i128) -> Result<(), Stop>
    requires wide { AllWide (length num.now) rows.now }
    requires positive { pos 0 <ℤ den }
    ensures { Answers (row_steps rows.now den num.now) result }
{
    for row in rows {
        row_holds(row, num, den)?;
    }
    Ok(())
}
