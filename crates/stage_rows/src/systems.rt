//! Systems of rows whose widths are known.

ghost use Rattle.std.specs.Prelude.{◌≡◌, ◌≤◌};
ghost use Rattle.poly_specs.specs.Rows.{AllWide};

use fm_eliminate::System;
use lin_row::Row;

/// The system of rows that have its width.
pub fn of_rows(width: usize, rows: Vec<Row>) -> System
    requires few { width ≤ 14 }
    requires wide { AllWide width rows.items }
    ensures { result ≡ record { width = width; rows = rows.items } }
{
    System::of_rows(width, rows)
}
