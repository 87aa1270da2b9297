// Rows by their numbers.
ghost use Rattle.std.specs.Prelude.{◌↔◌, All, IsTrue};
ghost use Rattle.poly_specs.specs.Bits.{FitsBits};

use lin_row::Row;
use std::alloc::Global;

fn is_kept(number: i128) -> bool
    ensures { IsTrue result ↔ FitsBits number }
{
    number != i128::MIN
}

fn all_kept(numbers: &[i128]) -> bool
    ensures { IsTrue result ↔ All FitsBits numbers.now }
{
    numbers.iter().all(|number| is_kept(*number))
}

/// The row of these numbers, if it can be kept.
pub(crate) fn row_of(alloc: Global, coef: &[i128], cst: i128) -> Option<Row> {
    if coef.len() <= 14 && all_kept(coef) && is_kept(cst) {
        Some(Row::make(alloc, coef, cst))
    } else {
        None
    }
}
