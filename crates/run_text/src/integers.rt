//! Integers in a text.

ghost use Rattle.std.specs.Prelude.{◌≡◌, ◌↔◌, IsTrue, SomeIff, true, ℕ, ℤ, pos, ◌^◌, ◌<◌, ◌≤◌, Some, IfSome, MatchOption, option_and_then};
ghost use Rattle.std.specs.List.{list_all};
ghost use Rattle.std.specs.Str.{IsUtf8};
ghost use Rattle.std.specs.Str.Parse.{signed_digits_value};
ghost use Rattle.poly_specs.specs.Bits.{FitsBits};
ghost use Rattle.number_specs.specs.Digits as digits;
ghost use Rattle.replay_specs.specs.RunTextFaults as texts;

/// Whether the byte is 0 to 9.
fn is_digit(byte: u8) -> bool
    ensures { result ≡ digits.is_digit byte }
{
    (b'0'..=b'9').contains(&byte)
}

/// Whether the bytes are digits.
fn are_digits(bytes: &[u8]) -> bool
    ensures { result ≡ list_all digits.is_digit bytes.now }
{
    bytes.iter().all(|byte| is_digit(*byte))
}

/// Whether the bytes are digits, and the first is no `0`.
fn is_counting(bytes: &[u8]) -> bool
    ensures { result ≡ texts.is_counting bytes.now }
{
    !bytes.is_empty() && are_digits(bytes) && bytes[0] != b'0'
}

/// Whether a text writes an integer, of any size.
pub(crate) fn is_integer(text: &[u8]) -> bool
    ensures { result ≡ texts.is_integer text.now }
{
    if text.is_empty() {
        return false;
    }
    if text[0] == b'-' {
        is_counting(&text[1..])
    } else {
        is_counting(text) || text == b"0".as_slice()
    }
}

/// The bytes as text, if they are UTF-8.
fn utf8(bytes: &[u8]) -> Option<&str>
    ensures { MatchOption result (IsUtf8 bytes.now → ⊥) (λ text. text.now ≡ bytes.now) }
{
    std::str::from_utf8(bytes).ok()
}

/// The integer that a text writes, unless it passes the type.
fn parsed(text: &[u8]) -> Option<i128>
    requires { texts.is_integer text.now ≡ true }
    ensures { MatchOption result (FitsBits (signed_digits_value 10 text.now) → ⊥) (λ n. n ≡ signed_digits_value 10 text.now) }
{
    match utf8(text)?.parse::<i128>() {
        Ok(number) => Some(number),
        Err(_) => None,
    }
}

/// The integer that a text writes, unless it passes 128 bits.
pub(crate) fn kept(text: &[u8]) -> Option<i128>
    requires { texts.is_integer text.now ≡ true }
    ensures { SomeIff result (FitsBits (signed_digits_value 10 text.now)) (signed_digits_value 10 text.now) }
{
    let number = parsed(text)?;
    if number == i128::MIN {
        return None;
    }
    Some(number)
}

/// Whether the integer that a text writes is at least 1.
pub(crate) fn is_positive(text: &[u8]) -> bool
    requires { texts.is_integer text.now ≡ true }
    ensures { result ≡ texts.is_positive (signed_digits_value 10 text.now) }
{
    if text.is_empty() {
        return false;
    }
    if text[0] == b'-' {
        return false;
    }
    text[0] != b'0'
}

/// The integer that a text writes, if it is 0 to 255.
pub(crate) fn kept_code(text: &[u8]) -> Option<u8>
    requires { texts.is_integer text.now ≡ true }
    ensures { MatchOption result ((n : ℕ) → signed_digits_value 10 text.now ≡ pos n → 256 ≤ n) (λ n. (signed_digits_value 10 text.now ≡ pos n) × (n < 256)) }
{
    let number = kept(text)?;
    match u8::try_from(number) {
        Ok(code) => Some(code),
        Err(_) => None,
    }
}

/// The integer that a text writes, if it is 0 to 2^32 - 1.
pub(crate) fn kept_count(text: &[u8]) -> Option<u32>
    requires { texts.is_integer text.now ≡ true }
    ensures { MatchOption result ((n : ℕ) → signed_digits_value 10 text.now ≡ pos n → 2 ^ 32 ≤ n) (λ n. (signed_digits_value 10 text.now ≡ pos n) × (n < 2 ^ 32)) }
{
    let number = kept(text)?;
    match u32::try_from(number) {
        Ok(count) => Some(count),
        Err(_) => None,
    }
}
