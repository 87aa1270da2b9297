//! The coefficient of a row in a column.

ghost use Rattle.std.specs.Prelude.{◌≡◌, ◌<◌, length};
ghost use Rattle.poly_specs.specs.Rows.{coef_at};

use lin_row::Row;

pub fn coefficient(row: &Row, x: usize) -> i128
    requires { x < length row.now.coef }
    ensures { result ≡ coef_at x row.now }
{
    row.coef()[x]
}
