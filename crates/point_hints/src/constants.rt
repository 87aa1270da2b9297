//! Whether rows hold where all columns are 0: their constants tell.

ghost use Rattle.std.specs.Prelude.{◌↔◌, Any, IsTrue};
ghost use Rattle.poly_specs.specs.Rows.{Allows};

use lin_row::Row;

/// Whether one of the rows does not hold where all columns are 0.
pub fn some_never_holds(rows: &[Row]) -> bool
    ensures { IsTrue result ↔ Any (λ r. Allows r.strict r.cst → ⊥) rows.now }
{
    rows.iter().any(|row| never_holds(row))
}

fn never_holds(row: &Row) -> bool
    ensures { IsTrue result ↔ (Allows row.now.strict row.now.cst → ⊥) }
{
    exceeds(row.cst(), row.strict())
}

/// Whether the sum is above 0, or is 0 and is to be below it.
pub fn exceeds(sum: i128, strict: bool) -> bool
    ensures { IsTrue result ↔ (Allows strict sum → ⊥) }
{
    sum > 0 || (strict && sum == 0)
}
