//! The lines of a run's text, read.

ghost use Rattle.std.specs.Prelude.{◌≡◌, ℕ, ◌+◌, ◌≤◌, ◌<◌, ◌^◌, ◌++◌, ◌∷◌, [], List, length, true, false, OnOk, IfOk, IfErr, IfSome, IfNone, MatchOption, ℤ, pos, ◌≤ℤ◌, Some, None, codes, All, Bool};
ghost use Rattle.std.specs.List.{list_all};
ghost use Rattle.std.specs.Str.Parse.{signed_digits_value};
ghost use Rattle.poly_specs.specs.Bits.{FitsBits};
ghost use Rattle.replay_specs.specs.RunTexts.{run_line, gap_line, at_line, stay_line, jump_line, AreWritableValues};
ghost use Rattle.replay_specs.specs.RunTextFaults as texts;
ghost use Rattle.replay_specs.specs.RunTextFaults.{Place, RunLine, GapLine, StayLine, step, gap_step, at_step, stay_step, jump_step, integer_behind, integers_behind, integers_of, fields_of, Refused, Outside};
ghost use Rattle.run_text.specs.Tells.{Tells};
ghost use Rattle.run_text.specs.declared.lines.LineFault.TheVariants.{Memory};

use crate::integers::{is_integer, is_positive, kept, kept_code, kept_count};
use crate::pieces::{Halves, behind, first_piece};
use std::alloc::Global;

/// Why a line is refused.
#[derive(Clone, Copy, Debug, PartialEq, Eq)]
pub(crate) enum LineFault {
    /// No line that may come here.
    Form,
    /// An integer is outside its limits.
    Range,
    /// There was no memory to keep it.
    Memory,
}

/// The text of the one integer behind this beginning of a line.
fn single<'a>(line: &'a [u8], word: &[u8]) -> Option<&'a [u8]>
    ensures none { IfNone result (integer_behind word.now line.now ≡ None) }
    ensures some { IfSome result (λ text. (texts.is_integer text.now ≡ true) × (line.now ≡ word.now ++ text.now)
        × (integer_behind word.now line.now ≡ Some (signed_digits_value 10 text.now))) }
{
    let text = behind(line, word)?;
    if !is_integer(text) {
        return None;
    }
    Some(text)
}

/// The number of gaps, from `run G`.
pub(crate) fn read_count(line: &[u8]) -> Result<u32, LineFault>
    ensures ok { IfOk result (λ g. (line.now ≡ run_line g) × (1 ≤ g) × (g < 2 ^ 32)) }
    ensures fault { IfErr result (λ e. Tells e (step RunLine line.now)) }
{
    let Some(text) = single(line, b"run ") else {
        return Err(LineFault::Form);
    };
    if !is_positive(text) {
        return Err(LineFault::Form);
    }
    match kept_count(text) {
        Some(count) => Ok(count),
        None => Err(LineFault::Range),
    }
}

/// The length of a leg, from `stay T`.
pub(crate) fn read_stay(line: &[u8]) -> Result<i128, LineFault>
    ensures ok { IfOk result (λ t. (line.now ≡ stay_line t) × FitsBits t) }
    ensures fault { IfErr result (λ e. (n : ℕ) → Tells e (step (StayLine n) line.now)) }
{
    let Some(text) = single(line, b"stay ") else {
        return Err(LineFault::Form);
    };
    match kept(text) {
        Some(time) => Ok(time),
        None => Err(LineFault::Range),
    }
}

/// The number of a transition, from `jump E`.
pub(crate) fn read_jump(line: &[u8]) -> Result<u8, LineFault>
    ensures ok { IfOk result (λ e. (line.now ≡ jump_line e) × (e < 256)) }
    ensures fault { IfErr result (λ e. (n : ℕ) → Tells e (jump_step n (integer_behind (codes "jump ") line.now))) }
{
    let Some(text) = single(line, b"jump ") else {
        return Err(LineFault::Form);
    };
    match kept_code(text) {
        Some(transition) => Ok(transition),
        None => Err(LineFault::Range),
    }
}

/// The texts of the two integers of a gap's line, of which the first is at least 1.
fn pair(line: &[u8]) -> Option<Halves<'_>>
    ensures none { IfNone result ((n : ℕ) → gap_step n (integers_behind (codes "gap ") line.now) ≡ Refused) }
    ensures some { IfSome result (λ h. (texts.is_integer h.before.now ≡ true) × (texts.is_integer h.after.now ≡ true)
        × (texts.is_positive (signed_digits_value 10 h.before.now) ≡ true)
        × (line.now ≡ codes "gap " ++ (h.before.now ++ 32 ∷ h.after.now))
        × (integers_behind (codes "gap ") line.now ≡ Some (signed_digits_value 10 h.before.now ∷ signed_digits_value 10 h.after.now ∷ []))) }
{
    let halves = first_piece(behind(line, b"gap ")?, b' ')?;
    if !is_integer(halves.before) {
        return None;
    }
    if !is_integer(halves.after) {
        return None;
    }
    if !is_positive(halves.before) {
        return None;
    }
    Some(halves)
}

/// What a gap's line tells.
#[derive(Clone, Copy)]
pub(crate) struct GapStart {
    pub(crate) den: i128,
    pub(crate) start_loc: u8,
}

/// The denominator and the start location, from `gap DEN LOC`.
pub(crate) fn read_gap(line: &[u8]) -> Result<GapStart, LineFault>
    ensures ok { IfOk result (λ g. (line.now ≡ gap_line g.den g.start_loc) × (pos 1 ≤ℤ g.den) × FitsBits g.den × (g.start_loc < 256)) }
    ensures fault { IfErr result (λ e. (n : ℕ) → Tells e (gap_step n (integers_behind (codes "gap ") line.now))) }
{
    let Some(halves) = pair(line) else {
        return Err(LineFault::Form);
    };
    let Some(den) = kept(halves.before) else {
        return Err(LineFault::Range);
    };
    let Some(start_loc) = kept_code(halves.after) else {
        return Err(LineFault::Range);
    };
    Ok(GapStart { den, start_loc })
}

/// The most values in a line.
const MOST_VALUES: usize = 6;

/// The number of fields; `None` where one of them is no integer.
fn count_integers(bytes: &[u8]) -> Option<usize>
    ensures { MatchOption result (list_all texts.is_integer (fields_of bytes.now) ≡ false)
        (λ n. (list_all texts.is_integer (fields_of bytes.now) ≡ true) × (n ≡ length (fields_of bytes.now))) }
{
    let mut rest = bytes;
    let mut count = 1;
    while let Some(halves) = first_piece(rest, b' ') {
        if !is_integer(halves.before) {
            return None;
        }
        rest = halves.after;
        count += 1;
    }
    if !is_integer(rest) {
        return None;
    }
    Some(count)
}

/// The texts of the values of a line, one to six.
fn values_text(line: &[u8]) -> Option<&[u8]>
    ensures none { IfNone result ((next : Place) → at_step next (integers_behind (codes "at ") line.now) ≡ Refused) }
    ensures some { IfSome result (λ rest. (list_all texts.is_integer (fields_of rest.now) ≡ true) × (length (fields_of rest.now) ≤ 6)
        × (line.now ≡ codes "at " ++ rest.now) × (integers_behind (codes "at ") line.now ≡ integers_of (fields_of rest.now))) }
{
    let rest = behind(line, b"at ")?;
    if count_integers(rest)? > MOST_VALUES {
        return None;
    }
    Some(rest)
}

/// One value more.
fn keep(values: &mut Vec<i128>, value: i128) -> Result<(), LineFault>
    ensures ok { OnOk result (values.new.items ≡ values.old.items ++ value ∷ []) }
    ensures fault { IfErr result (λ e. e ≡ Memory) }
{
    match values.push(value) {
        Ok(()) => Ok(()),
        Err(_) => Err(LineFault::Memory),
    }
}

/// The values that the fields write, unless one passes 128 bits.
fn collect(alloc: Global, bytes: &[u8]) -> Result<Vec<i128>, LineFault>
    requires { list_all texts.is_integer (fields_of bytes.now) ≡ true }
    ensures ok { IfOk result (λ values. (integers_of (fields_of bytes.now) ≡ Some values.items) × All FitsBits values.items) }
    ensures fault { IfErr result (λ e. (next : Place) → length (fields_of bytes.now) ≤ 6 → Tells e (at_step next (integers_of (fields_of bytes.now)))) }
{
    let mut values = Vec::new(alloc);
    let mut rest = bytes;
    while let Some(halves) = first_piece(rest, b' ') {
        let Some(value) = kept(halves.before) else {
            return Err(LineFault::Range);
        };
        keep(&mut values, value)?;
        rest = halves.after;
    }
    let Some(value) = kept(rest) else {
        return Err(LineFault::Range);
    };
    keep(&mut values, value)?;
    Ok(values)
}

/// The values of a line, from `at N1 N2`.
pub(crate) fn read_values(alloc: Global, line: &[u8]) -> Result<Vec<i128>, LineFault>
    ensures ok { IfOk result (λ values. (line.now ≡ at_line values.items) × AreWritableValues values.items) }
    ensures fault { IfErr result (λ e. (next : Place) → Tells e (at_step next (integers_behind (codes "at ") line.now))) }
{
    let Some(rest) = values_text(line) else {
        return Err(LineFault::Form);
    };
    collect(alloc, rest)
}
