//! The lines of a text.

ghost use Rattle.std.specs.Prelude.{◌≡◌, ◌<◌, ◌∷◌, [], length, IfSome, MatchOption};
ghost use Rattle.report_specs.specs.Lines.{HasNoFeed};
ghost use Rattle.log_samples.specs.Lines.{lines_from};

use log_reader::{first_feed, without_return};

/// The first line of some bytes, without its end, and the bytes after it.
#[derive(Clone, Copy)]
pub(crate) struct Next<'a> {
    pub(crate) line: &'a [u8],
    pub(crate) after: &'a [u8],
}

/// The first line; `None` where no byte is there.
pub(crate) fn next_line(text: &[u8]) -> Option<Next<'_>>
    ensures lines { MatchOption result (lines_from text.now ≡ []) (λ n. lines_from text.now ≡ n.line.now ∷ lines_from n.after.now) }
    ensures no_feed { IfSome result (λ n. HasNoFeed n.line.now) }
    ensures shorter { IfSome result (λ n. length n.after.now < length text.now) }
{
    if let Some(at) = first_feed(text) {
        let line = without_return(&text[..at]);
        return Some(Next {
            line,
            after: &text[at + 1..],
        });
    }
    if text.is_empty() {
        return None;
    }
    Some(Next {
        line: text,
        after: &text[..0],
    })
}
