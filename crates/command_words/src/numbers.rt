//! Numbers in words.
ghost use Rattle.std.specs.Prelude.{◌≡◌, ◌≤◌, ◌^◌, option_map, IsTrue, IfSome, IfNone};
ghost use Rattle.std.specs.List.{list_all};
ghost use Rattle.std.specs.Str.Parse.{digits_value};
ghost use Rattle.number_specs.specs.Digits.{is_digit};
ghost use Rattle.command_words.specs.CommandLine.{is_plain_number, number_in, number_or};

/// Whether all bytes are digits.
fn are_digits(bytes: &[u8]) -> bool
    ensures { result ≡ list_all is_digit bytes.now }
{
    bytes.iter().all(|b| b.is_ascii_digit())
}

/// Whether the bytes are digits without a leading zero.
fn is_plain_number(bytes: &[u8]) -> bool
    ensures { result ≡ is_plain_number bytes.now }
{
    match bytes {
        [] => false,
        [b'0', rest @ ..] => rest.is_empty(),
        _ => are_digits(bytes),
    }
}

/// The number that digits write, if it is below 2^32.
fn number_of(digits: &str) -> Option<u32>
    requires { IsTrue (is_plain_number digits.now) }
    ensures value { IfSome result (λ n. n ≡ digits_value 10 digits.now) }
    ensures large { IfNone result (2 ^ 32 ≤ digits_value 10 digits.now) }
{
    match digits.parse::<u32>() {
        Ok(number) => Some(number),
        Err(_) => None,
    }
}

/// The number that a word writes, if it is one from `least` to `most`.
fn number_in(word: &str, least: u32, most: u32) -> Option<u32>
    ensures value { result ≡ number_in least most word.now }
    ensures range { IfSome result (λ n. (least ≤ n) × (n ≤ most)) }
{
    if !is_plain_number(word.as_bytes()) {
        return None;
    }
    let number = number_of(word)?;
    if (least..=most).contains(&number) {
        Some(number)
    } else {
        None
    }
}

/// An option's number, from `least` to `most`; `default` where the option is not given.
pub(crate) fn number_or(word: Option<&str>, least: u32, most: u32, default: u32) -> Option<u32>
    requires least { least ≤ default }
    requires most { default ≤ most }
    ensures value { result ≡ number_or least most default (option_map (λ w. w.now) word.entry) }
    ensures range { IfSome result (λ n. (least ≤ n) × (n ≤ most)) }
{
    match word {
        Some(word) => number_in(word, least, most),
        None => Some(default),
    }
}
