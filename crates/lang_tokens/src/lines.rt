//! The lines of a text.

ghost use Rattle.std.specs.Prelude.{◌≡◌, ◌+◌, ◌<◌, ◌≤◌, ◌∷◌, ◌==◌, [], length, MatchOption};
ghost use Rattle.std.specs.List.{position};
ghost use Rattle.lang_specs.specs.Lines as lines;
ghost use Rattle.lang_specs.specs.Lines.{lines_of};

/// The line without a carriage return at its end.
fn without_return(line: &[u8]) -> &[u8]
    ensures value { result.now ≡ lines.without_return line.now }
    ensures shorter { length result.now ≤ length line.now }
{
    let n = line.len();
    if n > 0 && line[n - 1] == b'\r' {
        &line[..n - 1]
    } else {
        line
    }
}

/// Where the first line feed stands.
fn feed_at(text: &[u8]) -> Option<usize>
    ensures { result ≡ position (λ b. b == 10) text.now }
{
    text.iter().position(|byte| *byte == b'\n')
}

/// The first line of a text, and the text behind it; `None` where no byte is left.
pub fn next_line(text: &[u8]) -> Option<(&[u8], &[u8])>
    ensures { MatchOption result (lines_of text.now ≡ [])
        (λ p. (lines_of text.now ≡ p.0.now ∷ lines_of p.1.now) × (length p.0.now + length p.1.now ≤ length text.now) × (length p.1.now < length text.now)) }
{
    if text.is_empty() {
        return None;
    }
    match feed_at(text) {
        None => Some((text, &[])),
        Some(at) => {
            let (line, behind) = text.split_at(at);
            let (_, rest) = behind.split_at(1);
            Some((without_return(line), rest))
        }
    }
}
