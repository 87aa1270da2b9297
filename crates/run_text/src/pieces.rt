//! Pieces of a text.

ghost use Rattle.std.specs.Prelude.{◌≡◌, ℕ, ◌+◌, ◌<◌, length, MatchOption, IfSome, IfNone, All, take, slice_index, ◌≢◌, ◌∷◌, [], ◌++◌, ◌==◌, option_map};
ghost use Rattle.std.specs.List.{slice_split};
ghost use Rattle.replay_specs.specs.RunTextFaults.{behind};

use memchr::memchr;

/// What stands before and after a byte.
#[derive(Clone, Copy)]
pub(crate) struct Halves<'a> {
    pub(crate) before: &'a [u8],
    pub(crate) after: &'a [u8],
}

/// Where a byte of this value stands first.
fn first_place(text: &[u8], byte: u8) -> Option<usize>
    ensures none { IfNone result (All (λ b. b ≢ byte) text.now) }
    ensures some { IfSome result (λ at. (at < length text.now) × (slice_index text.now at ≡ byte) × All (λ b. b ≢ byte) (take at text.now)) }
{
    memchr(byte, text)
}

/// The first piece of a text that is cut at each byte of this value, and the bytes behind it;
/// `None` where there is no such byte.
pub(crate) fn first_piece<'a>(text: &'a [u8], byte: u8) -> Option<Halves<'a>>
    ensures pieces { MatchOption result (slice_split (λ b. b == byte) text.now ≡ text.now ∷ [])
        (λ h. slice_split (λ b. b == byte) text.now ≡ h.before.now ∷ slice_split (λ b. b == byte) h.after.now) }
    ensures whole { IfSome result (λ h. text.now ≡ h.before.now ++ byte ∷ h.after.now) }
{
    let at = first_place(text, byte)?;
    Some(Halves {
        before: &text[..at],
        after: &text[at + 1..],
    })
}

/// What follows the beginning of a line.
pub(crate) fn behind<'a>(line: &'a [u8], word: &[u8]) -> Option<&'a [u8]>
    ensures value { option_map (λ rest. rest.now) result ≡ behind word.now line.now }
    ensures whole { IfSome result (λ rest. line.now ≡ word.now ++ rest.now) }
{
    line.strip_prefix(word)
}
