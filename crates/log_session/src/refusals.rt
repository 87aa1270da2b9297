//! The refusal that is told of a line, by what refused it.

ghost use Rattle.std.specs.Prelude.{◌≡◌, Some, None, IfOk, IfErr};
ghost use Rattle.log_session.specs.Refusals.{row_word};

use log_reader::RowRefusal;
use log_specs::Refusal;
use std::alloc::AllocError;

/// The refusal of a line that is no row; an error where there was no memory.
pub(crate) fn row_refusal(refusal: RowRefusal) -> Result<Refusal, AllocError>
    ensures ok { IfOk result (λ why. row_word refusal ≡ Some why) }
    ensures err { IfErr result (λ _. row_word refusal ≡ None) }
{
    match refusal {
        RowRefusal::Long => Ok(Refusal::Long),
        RowRefusal::Text => Ok(Refusal::Text),
        RowRefusal::Fields => Ok(Refusal::Fields),
        RowRefusal::Name => Ok(Refusal::Name),
        RowRefusal::Number => Ok(Refusal::Number),
        RowRefusal::Memory => Err(AllocError),
    }
}
