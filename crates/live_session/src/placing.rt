//! A sample as the log has it: with a cell for each variable.

ghost use Rattle.std.specs.Prelude.{◌≡◌, ◌<◌, IfOk, All, length};
ghost use Rattle.run_specs.specs.Sessions.{placed};

use frac128::Frac;
use lha_model::Sample;
use std::alloc::{AllocError, Global};

/// The same cells.
pub(crate) fn copied(alloc: Global, cells: &[Option<Frac>]) -> Result<Vec<Option<Frac>>, AllocError>
    ensures { IfOk result (λ v. v.items ≡ cells.now) }
{
    let mut copies = Vec::with_capacity(alloc, cells.len())?;
    for cell in cells {
        copies.push_reserved(*cell);
    }
    Ok(copies)
}

/// The same sample.
pub(crate) fn copied_sample(alloc: Global, sample: &Sample) -> Result<Sample, AllocError>
    ensures { IfOk result (λ s. s ≡ sample.now) }
{
    let cells = copied(alloc, sample.cells())?;
    Ok(Sample::new(*sample.time(), cells))
}

/// The cells by variable, from those by column; blank where the variable is no column.
fn placed_cells(
    alloc: Global,
    width: usize,
    columns: &[u8],
    cells: &[Option<Frac>],
) -> Result<Vec<Option<Frac>>, AllocError>
    requires columns { All (λ c. c < width) columns.now }
    requires cells { length cells.now ≡ length columns.now }
    ensures { IfOk result (λ v. v.items ≡ placed width columns.now cells.now) }
{
    let mut by_variable = vec![in alloc; None; width]?;
    let mut rest = columns.len();
    while rest > 0 {
        rest -= 1;
        by_variable[usize::from(columns[rest])] = cells[rest];
    }
    Ok(by_variable)
}

/// The sample with its cells by variable.
pub(crate) fn placed_sample(
    alloc: Global,
    width: usize,
    columns: &[u8],
    sample: &Sample,
) -> Result<Sample, AllocError>
    requires columns { All (λ c. c < width) columns.now }
    requires cells { length sample.now.cells ≡ length columns.now }
    ensures { IfOk result (λ s. s ≡ record { time = sample.now.time; cells = placed width columns.now sample.now.cells }) }
{
    let cells = placed_cells(alloc, width, columns, sample.cells())?;
    Ok(Sample::new(*sample.time(), cells))
}
