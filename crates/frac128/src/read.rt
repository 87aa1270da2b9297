//! Numbers that are written: in a cell or a time of a log, and in a model.

ghost use Rattle.std.specs.Prelude.{◌≡◌, ℕ, ◌+◌, ◌-◌, ◌*◌, ◌^◌, ◌<◌, ◌≤◌, length, Bool, true, pos, option_map, Some, IsTrue, IfSome, MatchOption};
ghost use Rattle.number_specs.specs.Digits.{numeral_of};
ghost use Rattle.number_specs.specs.Digits as digit;
ghost use Rattle.number_specs.specs.LogNumbers.{no_digits, mantissa_from, small_from, exponent_of, moved, unsigned_of, number_of, read_number};
ghost use Rattle.number_specs.specs.LogNumbers as log;
ghost use Rattle.number_specs.specs.Literals.{read_literal};
ghost use Rattle.number_specs.specs.Literals as literal;
ghost use Rattle.frac128.specs.Readings.{KeepsValue, IsNumeralOf, IsStripped, IsDigitsOf, IsMantissaOf, StepsTo, same_exponent};
ghost use Rattle.poly_specs.specs.Arithmetic.{lowest};
ghost use Rattle.poly_specs.specs.Bits.{FitsBits};

use crate::Frac;
use number_specs::NumFault;

/// A literal has at most so many digits.
const MOST_DIGITS: usize = 9;

/// A number of a log has at most so many digits before its point.
const MOST_WHOLE_DIGITS: u64 = 15;

/// It has at most so many decimals.
const MOST_DECIMALS: u64 = 18;

/// The digits that a text begins with.
#[derive(Clone, Copy)]
struct Numeral<'a> {
    /// Their number. Where they are too many for a literal it only tells whether theirs is 0.
    value: u64,
    /// How many they are.
    count: usize,
    /// The bytes behind them.
    rest: &'a [u8],
}

/// Digits that were read, with a point among them or none.
#[derive(Clone, Copy)]
struct Digits {
    /// Their number without the zeros at its end, or none where that is 10^33 or more: it is out of range then.
    kept: Option<u128>,
    /// How many zeros those are.
    zeros: usize,
    has_digit: bool,
    has_point: bool,
    /// How many of the digits stand after the point.
    after_point: usize,
}

/// The digits that the bytes of a number begin with, and the bytes behind them.
#[derive(Clone, Copy)]
struct Mantissa<'a> {
    digits: Digits,
    rest: &'a [u8],
}

/// How far the point moves: to the right, or to the left where it is negative.
#[derive(Clone, Copy)]
struct Exponent {
    is_negative: bool,
    size: u64,
}

/// Whether the byte is a digit.
fn is_digit(byte: u8) -> bool
    ensures { result ≡ digit.is_digit byte }
{
    b'0' <= byte && byte <= b'9'
}

/// 10 to this power.
fn power_of_ten(exponent: u64) -> u128
    requires { exponent ≤ 38 }
    ensures { result ≡ 10 ^ exponent }
{
    10u128.pow(exponent as u32)
}

// ---- digits alone

/// The value of digits with one digit more.
fn next_value(value: u64, count: usize, byte: u8) -> u64
    requires digit { IsTrue (digit.is_digit byte) }
    requires small { value < 10 ^ 9 }
    ensures { (v : ℕ) → KeepsValue v count value → KeepsValue (v * 10 + (byte - 48)) (count + 1) result }
{
    let digit = u64::from(byte - b'0');
    if count < MOST_DIGITS {
        value * 10 + digit
    } else {
        value.max(digit)
    }
}

/// Reads the digits that a text begins with.
fn read_numeral(bytes: &[u8]) -> Numeral<'_>
    ensures { IsNumeralOf (numeral_of bytes.now) result.value result.count result.rest.now }
{
    let mut value = 0;
    let mut count = 0;
    let mut rest = bytes;
    while let [byte, behind @ ..] = rest {
        if !is_digit(*byte) {
            break;
        }
        value = next_value(value, count, *byte);
        count += 1;
        rest = behind;
    }
    Numeral { value, count, rest }
}

// ---- digits with a point among them

/// The number with the zeros behind it and then this digit, or none where it is 10^33 or more.
fn extended(kept: u128, zeros: usize, digit: u8) -> Option<u128>
    requires { digit < 10 }
    ensures { MatchOption result (10 ^ 33 ≤ kept * 10 ^ (zeros + 1) + digit) (λ k. k ≡ kept * 10 ^ (zeros + 1) + digit) }
{
    let digit = u128::from(digit);
    if kept == 0 {
        return Some(digit);
    }
    if zeros > 32 {
        return None;
    }
    if kept >= power_of_ten(32 - zeros as u64) {
        return None;
    }
    Some(kept * power_of_ten(zeros as u64 + 1) + digit)
}

impl Digits {
    /// Before the first digit.
    fn none() -> Digits
        ensures value { IsDigitsOf no_digits result }
        ensures short { (result.zeros ≡ 0) × (result.after_point ≡ 0) }
    {
        Digits {
            kept: Some(0),
            zeros: 0,
            has_digit: false,
            has_point: false,
            after_point: 0,
        }
    }

    /// The same with the digit 0.
    fn with_zero(self) -> Digits
        requires short { (self.zeros + 1 < 2 ^ 64) × (self.after_point + 1 < 2 ^ 64) }
        ensures value { (d : log.Digits) → IsDigitsOf d self → IsDigitsOf (log.with_digit d 48) result }
        ensures short { (result.zeros ≤ self.zeros + 1) × (result.after_point ≤ self.after_point + 1) }
    {
        Digits {
            kept: self.kept,
            zeros: self.zeros + 1,
            has_digit: true,
            has_point: self.has_point,
            after_point: self.after_point + usize::from(self.has_point),
        }
    }

    /// The same with a digit that is not 0.
    fn with_nonzero(self, digit: u8) -> Digits
        requires digit { (0 < digit) × (digit < 10) }
        requires short { self.after_point + 1 < 2 ^ 64 }
        ensures value { (d : log.Digits) → IsDigitsOf d self → IsDigitsOf (log.with_digit d (48 + digit)) result }
        ensures short { (result.zeros ≡ 0) × (result.after_point ≤ self.after_point + 1) }
    {
        let kept = match self.kept {
            Some(kept) => extended(kept, self.zeros, digit),
            None => None,
        };
        Digits {
            kept,
            zeros: 0,
            has_digit: true,
            has_point: self.has_point,
            after_point: self.after_point + usize::from(self.has_point),
        }
    }

    /// The same with a point.
    fn with_point(self) -> Digits
        ensures value { (d : log.Digits) → IsDigitsOf d self → IsDigitsOf (record d { has_point = true }) result }
        ensures short { (result.zeros ≡ self.zeros) × (result.after_point ≡ self.after_point) }
    {
        Digits {
            kept: self.kept,
            zeros: self.zeros,
            has_digit: self.has_digit,
            has_point: true,
            after_point: self.after_point,
        }
    }

    /// The same with the digit or the first point that the byte is, or none where it is neither.
    fn with_byte(self, byte: u8) -> Option<Digits>
        requires short { (self.zeros + 1 < 2 ^ 64) × (self.after_point + 1 < 2 ^ 64) }
        ensures value { (d : log.Digits) → IsDigitsOf d self → StepsTo d byte result }
        ensures short { IfSome result (λ r. (r.zeros ≤ self.zeros + 1) × (r.after_point ≤ self.after_point + 1)) }
    {
        match byte {
            b'0' => Some(self.with_zero()),
            b'1'..=b'9' => Some(self.with_nonzero(byte - b'0')),
            b'.' if !self.has_point => Some(self.with_point()),
            _ => None,
        }
    }
}

/// Reads the digits and the first point that the bytes begin with.
fn read_mantissa(bytes: &[u8]) -> Mantissa<'_>
    ensures value { IsMantissaOf (mantissa_from no_digits bytes.now) result.digits result.rest.now }
    ensures short { (result.digits.zeros ≤ length bytes.now) × (result.digits.after_point ≤ length bytes.now) }
{
    let mut digits = Digits::none();
    let mut rest = bytes;
    while let [byte, behind @ ..] = rest {
        let Some(more) = digits.with_byte(*byte) else {
            break;
        };
        digits = more;
        rest = behind;
    }
    Mantissa { digits, rest }
}

// ---- an exponent

/// Reads a number of 1 to 4 digits and nothing else.
fn read_small(bytes: &[u8]) -> Option<u64>
    ensures value { result ≡ small_from 0 0 bytes.now }
    ensures small { IfSome result (λ n. n < 10 ^ 4) }
{
    if bytes.is_empty() {
        return None;
    }
    if bytes.len() > 4 {
        return None;
    }
    let mut value = 0;
    let mut rest = bytes;
    while let [byte, behind @ ..] = rest {
        if !is_digit(*byte) {
            return None;
        }
        value = value * 10 + u64::from(*byte - b'0');
        rest = behind;
    }
    Some(value)
}

/// Reads the exponent behind its letter: a sign or none, and 1 to 4 digits.
fn read_signed_exponent(bytes: &[u8]) -> Option<Exponent>
    ensures value { option_map same_exponent result ≡ log.exponent_behind bytes.now }
    ensures small { IfSome result (λ e. e.size < 10 ^ 4) }
{
    let (is_negative, digits) = match bytes {
        [b'+', digits @ ..] => (false, digits),
        [b'-', digits @ ..] => (true, digits),
        _ => (false, bytes),
    };
    let size = read_small(digits)?;
    Some(Exponent { is_negative, size })
}

/// Reads what follows the digits: nothing, or `e` or `E` and an exponent.
fn read_exponent(bytes: &[u8]) -> Option<Exponent>
    ensures value { option_map same_exponent result ≡ exponent_of bytes.now }
    ensures small { IfSome result (λ e. e.size < 10 ^ 4) }
{
    match bytes {
        [] => Some(Exponent {
            is_negative: false,
            size: 0,
        }),
        [b'e' | b'E', behind @ ..] => read_signed_exponent(behind),
        _ => None,
    }
}

// ---- the value

/// `n`, or `-n`.
fn signed(is_negative: bool, n: u128) -> i128
    requires { n < 2 ^ 127 }
    ensures value { result ≡ log.signed is_negative n }
    ensures kept { FitsBits result }
{
    if is_negative { -(n as i128) } else { n as i128 }
}

/// The fraction `top / bottom`, or the one with the other sign.
fn signed_fraction(is_negative: bool, top: u128, bottom: u128) -> Frac
    requires top { top < 2 ^ 127 }
    requires positive { 0 < bottom }
    requires bottom { bottom < 2 ^ 127 }
    ensures { result ≡ lowest (record { num = log.signed is_negative top; den = pos bottom }) }
{
    Frac::make(signed(is_negative, top), bottom as i128)
}

/// The number with these zeros behind it, where it is in range.
fn whole_number(is_negative: bool, number: u128, zeros: u64) -> Result<Frac, NumFault>
    requires { 0 < number }
    ensures { result ≡ number_of (Some (record { is_negative = is_negative; top = number * 10 ^ zeros; bottom = 1 })) }
{
    if zeros >= MOST_WHOLE_DIGITS {
        return Err(NumFault::Range);
    }
    if number >= power_of_ten(MOST_WHOLE_DIGITS - zeros) {
        return Err(NumFault::Range);
    }
    Ok(signed_fraction(is_negative, number * power_of_ten(zeros), 1))
}

/// The number over 10 to the count of its decimals, of which none is a zero at the end, where it is in range.
fn decimal_number(is_negative: bool, number: u128, decimals: u64) -> Result<Frac, NumFault>
    requires positive { 0 < number }
    requires stripped { IsStripped number }
    ensures { result ≡ number_of (Some (record { is_negative = is_negative; top = number; bottom = 10 ^ decimals })) }
{
    if decimals > MOST_DECIMALS {
        return Err(NumFault::Range);
    }
    if number >= power_of_ten(MOST_WHOLE_DIGITS + decimals) {
        return Err(NumFault::Range);
    }
    Ok(signed_fraction(is_negative, number, power_of_ten(decimals)))
}

/// The number times 10 to the power `up` over 10 to the power `down`, where it is in range.
fn scaled_number(is_negative: bool, number: u128, up: u64, down: u64) -> Result<Frac, NumFault>
    requires { IsStripped number }
    ensures { result ≡ number_of (Some (record { is_negative = is_negative; top = number * 10 ^ up; bottom = 10 ^ down })) }
{
    if number == 0 {
        return Ok(Frac::make(0, 1));
    }
    if up >= down {
        whole_number(is_negative, number, up - down)
    } else {
        decimal_number(is_negative, number, down - up)
    }
}

/// The value of digits with the point moved by the exponent, where it is in range.
fn moved_number(is_negative: bool, digits: Digits, exponent: Exponent) -> Result<Frac, NumFault>
    requires stripped { IfSome digits.kept IsStripped }
    requires zeros { digits.zeros < 2 ^ 63 }
    requires after_point { digits.after_point < 2 ^ 63 }
    requires exponent { exponent.size < 10 ^ 4 }
    ensures { (d : log.Digits) → IsDigitsOf d digits → result ≡ number_of (Some (moved is_negative d (same_exponent exponent))) }
{
    let Some(kept) = digits.kept else {
        return Err(NumFault::Range);
    };
    let zeros = digits.zeros as u64;
    let decimals = digits.after_point as u64;
    if exponent.is_negative {
        scaled_number(is_negative, kept, zeros, decimals + exponent.size)
    } else {
        scaled_number(is_negative, kept, zeros + exponent.size, decimals)
    }
}

/// The number that the bytes after a sign write.
fn read_unsigned(is_negative: bool, bytes: &[u8]) -> Result<Frac, NumFault>
    ensures { result ≡ number_of (unsigned_of is_negative bytes.now) }
{
    let mantissa = read_mantissa(bytes);
    let Some(exponent) = read_exponent(mantissa.rest) else {
        return Err(NumFault::Form);
    };
    if !mantissa.digits.has_digit {
        return Err(NumFault::Form);
    }
    moved_number(is_negative, mantissa.digits, exponent)
}

// ---- a literal

/// The fraction of two numbers.
fn ratio(top: u64, bottom: u64) -> Frac
    requires { 0 < bottom }
    ensures { result ≡ literal.ratio top bottom }
{
    Frac::make(i128::from(top), i128::from(bottom))
}

/// `D`.
fn whole_literal(n: Numeral) -> Result<Frac, NumFault>
    ensures { (a : digit.Numeral) → IsNumeralOf a n.entry.value n.entry.count n.entry.rest.now → result ≡ literal.whole_literal a }
{
    if n.count > MOST_DIGITS {
        return Err(NumFault::Range);
    }
    Ok(ratio(n.value, 1))
}

/// `D/D`.
fn divided_literal(n: Numeral, d: Numeral) -> Result<Frac, NumFault>
    ensures { (a b : digit.Numeral) → IsNumeralOf a n.entry.value n.entry.count n.entry.rest.now → IsNumeralOf b d.entry.value d.entry.count d.entry.rest.now →
        result ≡ literal.divided_literal a b }
{
    if d.count == 0 || !d.rest.is_empty() || d.value == 0 {
        return Err(NumFault::Form);
    }
    if n.count > MOST_DIGITS || d.count > MOST_DIGITS {
        return Err(NumFault::Range);
    }
    Ok(ratio(n.value, d.value))
}

/// `D.D`.
fn decimal_literal(n: Numeral, d: Numeral) -> Result<Frac, NumFault>
    requires { (n.value < 10 ^ 9) × (d.value < 10 ^ 9) }
    ensures { (a b : digit.Numeral) → IsNumeralOf a n.entry.value n.entry.count n.entry.rest.now → IsNumeralOf b d.entry.value d.entry.count d.entry.rest.now →
        result ≡ literal.decimal_literal a b }
{
    if d.count == 0 || !d.rest.is_empty() {
        return Err(NumFault::Form);
    }
    if n.count > MOST_DIGITS || d.count > MOST_DIGITS - n.count {
        return Err(NumFault::Range);
    }
    let scale = 10u64.pow(d.count as u32);
    Ok(ratio(n.value * scale + d.value, scale))
}

impl Frac {
    /// The number that a cell or a time of a log writes: a sign or none, digits with a point or none, and an exponent or
    /// none, which is `e` or `E`, a sign or none, and 1 to 4 digits. There is at least one digit before the exponent.
    ///
    /// `Form` where the text is not of this form, `Range` where the value is 10^15 or more on either side of 0 or is no
    /// whole number of parts of 10^18.
    pub fn read_decimal(text: &str) -> Result<Frac, NumFault>
        ensures { result ≡ read_number text.now }
    {
        let bytes = text.as_bytes();
        match bytes {
            [b'+', digits @ ..] => read_unsigned(false, digits),
            [b'-', digits @ ..] => read_unsigned(true, digits),
            _ => read_unsigned(false, bytes),
        }
    }

    /// The number that a literal of a model writes: `D`, `D/D` or `D.D`, where D is one or more digits.
    ///
    /// `Form` where the text is not of this form or the second number of `D/D` is 0, `Range` where a number of `D` or `D/D`
    /// has more than nine digits or those of `D.D` have more than nine together.
    pub fn read_model(text: &str) -> Result<Frac, NumFault>
        ensures { result ≡ read_literal text.now }
    {
        let whole = read_numeral(text.as_bytes());
        if whole.count == 0 {
            return Err(NumFault::Form);
        }
        match whole.rest {
            [] => whole_literal(whole),
            [b'/', behind @ ..] => divided_literal(whole, read_numeral(behind)),
            [b'.', behind @ ..] => decimal_literal(whole, read_numeral(behind)),
            _ => Err(NumFault::Form),
        }
    }
}
