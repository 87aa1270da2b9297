//! Fields that are numbers.

ghost use Rattle.std.specs.Prelude.{◌≡◌, map, IfOk};
ghost use Rattle.std.specs.Option.{option_map};
ghost use Rattle.number_specs.specs.LogNumbers.{read_number};
ghost use Rattle.log_specs.specs.LogRows as rows;

use frac128::{Frac, NumFault};
use std::alloc::{AllocError, Global};

/// The number that a field writes.
pub(crate) fn number_of(field: &[u8]) -> Result<Frac, NumFault>
    ensures { result ≡ read_number field.now }
{
    match str::from_utf8(field) {
        Ok(text) => Frac::read_decimal(text),
        Err(_) => Err(NumFault::Form),
    }
}

/// The values of the fields, of which an empty one is not observed; or `None` where one of them is no number.
pub(crate) fn cells_of(
    alloc: Global,
    fields: &[&[u8]],
) -> Result<Option<Vec<Option<Frac>>>, AllocError>
    ensures { IfOk result (λ cells. option_map (λ c. c.items) cells ≡ rows.cells_of (map (λ f. f.now) fields.now)) }
{
    let mut cells = Vec::with_capacity(alloc, fields.len())?;
    let mut rest = fields;
    while let [field, others @ ..] = rest {
        if field.is_empty() {
            cells.push(None)?;
        } else {
            let Ok(value) = number_of(field) else {
                return Ok(None);
            };
            cells.push(Some(value))?;
        }
        rest = others;
    }
    Ok(Some(cells))
}
