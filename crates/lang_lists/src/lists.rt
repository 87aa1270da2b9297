//! What lists of variables and of bounds have in common: six items at most.

ghost use Rattle.std.specs.Prelude.{◌≡◌, if◌then◌else◌, Some};
ghost use Rattle.lang_specs.specs.Marks.{mark};
ghost use Rattle.lang_specs.specs.declared.Which.TheVariants.{Variables};
ghost use Rattle.lang_tokens.specs.Machines as machines;
ghost use Rattle.lang_tokens.specs.Places.{placed_of};
ghost use Rattle.lang_lists.specs.SixAtMost as six;

use lang_specs::Which;
use lang_tokens::{Token, fits_on, passed_alone};

/// Whether so many complete items leave room for what is to come: one more, unless the line has ended.
pub(crate) fn has_room(has_ended: bool, count: usize) -> bool
    ensures { result ≡ six.has_room has_ended count }
{
    count <= if has_ended { 6 } else { 5 }
}

/// The limit that a token passes, with room before it and behind it, or not.
pub(crate) fn passed<'a>(line: u32, before: bool, behind: bool, token: Token<'a>) -> Option<Which>
    ensures { result ≡ (if machines.fits_on before behind (mark (placed_of line token.entry)) then machines.passed_alone (mark (placed_of line token.entry)) else Some Variables) }
{
    if fits_on(before, behind, token.kind) {
        passed_alone(line, token)
    } else {
        Some(Which::Variables)
    }
}
