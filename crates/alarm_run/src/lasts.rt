//! The last values of a first run.

ghost use Rattle.std.specs.Prelude.{◌≡◌, [], Err, IfOk, pos};
ghost use Rattle.poly_specs.specs.Rows.{HasPoint, over};
ghost use Rattle.alarm_run.specs.Lasts.{ArePickedLast, LastPasses};

use fm_eliminate::{RowFault, System};
use frac128::Frac;
use gap_runs::{lowest_of, picked_after};
use lin_row::Point;
use std::alloc::Global;

/// The point of no numbers.
fn no_numbers(alloc: Global) -> Point
    ensures { result ≡ over (pos 1) [] }
{
    Point::make(Vec::new(alloc), 1).unwrap()
}

/// The values of the system's columns, each of which is the pick of what the system leaves for it.
/// `Passes` only where eliminating its columns from the right passes 128 bits, or picking them does.
pub fn last_values(alloc: Global, system: &System) -> Result<Vec<Frac>, RowFault>
    requires { HasPoint system.now.width system.now.rows }
    ensures ok { IfOk result (λ v. ArePickedLast system.now v.items) }
    ensures passes { result ≡ Err RowFault.Passes → LastPasses system.now }
{
    let none = no_numbers(alloc);
    let point = picked_after(alloc, system, &none)?;
    let numbers = lowest_of(alloc, &point)?;
    Ok(numbers)
}
