//! Cuts a line into tokens.

ghost use Rattle.std.specs.Prelude.{◌≡◌, ◌<◌, ◌≤◌, ◌+◌, ◌^◌, ◌==◌, length, map, bytes_eq, IfOk, IsTrue, SomeIff, slice_index};
ghost use Rattle.std.specs.List.{starts_with};
ghost use Rattle.number_specs.specs.Digits.{is_digit};
ghost use Rattle.number_specs.specs.Literals.{read_literal};
ghost use Rattle.run_specs.specs.Names.{is_word_byte, is_name};
ghost use Rattle.lang_specs.specs.Words.{word_kind};
ghost use Rattle.lang_specs.specs.Tokens as tokens;
ghost use Rattle.lang_specs.specs.Tokens.{token_at};
ghost use Rattle.lang_tokens.specs.Places.{placed_of, behind_size};

use frac128::{Frac, NumFault};
use lang_specs::Kind;
use lha_model::Name;
use std::alloc::{AllocError, Global};

/// A token of a line.
#[derive(Clone, Copy, Debug)]
pub struct Token<'a> {
    /// The column of its first byte, from 1.
    pub column: u32,
    pub kind: Kind,
    pub text: &'a [u8],
}

/// What a literal writes.
pub fn literal_value(text: &[u8]) -> Result<Frac, NumFault>
    ensures { result ≡ read_literal text.now }
{
    match str::from_utf8(text) {
        Ok(text) => Frac::read_model(text),
        Err(_) => Err(NumFault::Form),
    }
}

/// The name that the bytes are; `None` exactly where they are none.
pub fn name_of(alloc: Global, text: &[u8]) -> Option<Name>
    ensures { SomeIff result (IsTrue (is_name text.now)) text.now }
{
    match str::from_utf8(text) {
        Ok(text) => Name::make(alloc, text),
        Err(_) => None,
    }
}

/// A space or a tab.
fn is_blank(byte: u8) -> bool
    ensures { result ≡ tokens.is_blank byte }
{
    byte == b' ' || byte == b'\t'
}

/// A letter or `_`.
fn begins_word(byte: u8) -> bool
    ensures { result ≡ tokens.begins_word byte }
{
    byte.is_ascii_alphabetic() || byte == b'_'
}

/// 0 to 9.
fn is_digit(byte: u8) -> bool
    ensures { result ≡ is_digit byte }
{
    byte.is_ascii_digit()
}

/// A letter, a digit or `_`.
fn is_word_byte(byte: u8) -> bool
    ensures { result ≡ is_word_byte byte }
{
    begins_word(byte) || is_digit(byte)
}

/// How many bytes at the front belong to one word.
fn word_len(bytes: &[u8]) -> usize
    ensures value { result ≡ tokens.word_len bytes.now }
    ensures within { result ≤ length bytes.now }
{
    let mut n = 0;
    while n < bytes.len() && is_word_byte(bytes[n]) {
        n += 1;
    }
    n
}

/// How many digits stand at the front.
fn digits_len(bytes: &[u8]) -> usize
    ensures value { result ≡ tokens.digits_len bytes.now }
    ensures within { result ≤ length bytes.now }
{
    let mut n = 0;
    while n < bytes.len() && is_digit(bytes[n]) {
        n += 1;
    }
    n
}

/// Digits behind a `/` or a `.`, with that byte.
fn tail_len(bytes: &[u8]) -> usize
    ensures value { result ≡ tokens.tail_len bytes.now }
    ensures within { result ≤ length bytes.now }
{
    match bytes {
        [b'/' | b'.', behind @ ..] => match digits_len(behind) {
            0 => 0,
            n => 1 + n,
        },
        _ => 0,
    }
}

/// How many bytes the longest literal at the front takes.
fn literal_len(bytes: &[u8]) -> usize
    ensures value { result ≡ tokens.literal_len bytes.now }
    ensures within { result ≤ length bytes.now }
{
    let whole = digits_len(bytes);
    whole + tail_len(&bytes[whole..])
}

/// What the literal is.
fn literal_kind(text: &[u8]) -> Kind
    ensures { result ≡ tokens.literal_kind text.now }
{
    match literal_value(text) {
        Ok(_) | Err(NumFault::Range) => Kind::Number,
        Err(NumFault::Form) => Kind::Other,
    }
}

/// Whether the bytes begin with the sign.
fn begins_with(bytes: &[u8], sign: &[u8]) -> bool
    ensures value { result ≡ starts_with (λ a b. a == b) bytes.now sign.now }
    ensures within { IsTrue result → length sign.now ≤ length bytes.now }
{
    bytes.starts_with(sign)
}

/// The longest sign that the bytes begin with, and how many bytes it takes.
fn sign_at(bytes: &[u8]) -> (Kind, usize)
    requires { 0 < length bytes.now }
    ensures kind { result.0 ≡ (tokens.sign_at bytes.now).kind }
    ensures size { result.1 ≡ (tokens.sign_at bytes.now).size }
    ensures some { 0 < result.1 }
    ensures within { result.1 ≤ length bytes.now }
{
    if begins_with(bytes, b"<=") {
        (Kind::AtMost, 2)
    } else if begins_with(bytes, b">=") {
        (Kind::AtLeast, 2)
    } else if begins_with(bytes, b"->") {
        (Kind::Arrow, 2)
    } else if begins_with(bytes, b"<") {
        (Kind::Less, 1)
    } else if begins_with(bytes, b">") {
        (Kind::Greater, 1)
    } else if begins_with(bytes, b"-") {
        (Kind::Minus, 1)
    } else if begins_with(bytes, b"=") {
        (Kind::Equal, 1)
    } else if begins_with(bytes, b"+") {
        (Kind::Plus, 1)
    } else if begins_with(bytes, b"*") {
        (Kind::Times, 1)
    } else if begins_with(bytes, b",") {
        (Kind::Comma, 1)
    } else if begins_with(bytes, b"[") {
        (Kind::Open, 1)
    } else if begins_with(bytes, b"]") {
        (Kind::Close, 1)
    } else {
        (Kind::Other, 1)
    }
}

/// Whether the word is the keyword.
fn is(word: &[u8], keyword: &[u8]) -> bool
    ensures { result ≡ bytes_eq word.now keyword.now }
{
    word == keyword
}

/// The keyword that a word is, or else a name.
fn word_kind(word: &[u8]) -> Kind
    ensures { result ≡ word_kind word.now }
{
    if is(word, b"lha") {
        Kind::Lha
    } else if is(word, b"automaton") {
        Kind::Automaton
    } else if is(word, b"var") {
        Kind::Var
    } else if is(word, b"loc") {
        Kind::Loc
    } else if is(word, b"unsafe") {
        Kind::Unsafe
    } else if is(word, b"init") {
        Kind::Init
    } else if is(word, b"inv") {
        Kind::Inv
    } else if is(word, b"flow") {
        Kind::Flow
    } else if is(word, b"in") {
        Kind::In
    } else if is(word, b"also") {
        Kind::Also
    } else if is(word, b"trans") {
        Kind::Trans
    } else if is(word, b"as") {
        Kind::As
    } else if is(word, b"when") {
        Kind::When
    } else if is(word, b"set") {
        Kind::Set
    } else if is(word, b"free") {
        Kind::Free
    } else if is(word, b"end") {
        Kind::End
    } else if is(word, b"true") {
        Kind::True
    } else if is(word, b"obs") {
        Kind::Obs
    } else if is(word, b"within") {
        Kind::Within
    } else {
        Kind::Name
    }
}

/// The longest token at the front of the bytes: what it is, and how many bytes it takes.
fn token_at(behind_literal: bool, bytes: &[u8]) -> (Kind, usize)
    requires { 0 < length bytes.now }
    ensures kind { result.0 ≡ (token_at behind_literal (slice_index bytes.now 0) bytes.now).kind }
    ensures size { result.1 ≡ (token_at behind_literal (slice_index bytes.now 0) bytes.now).size }
    ensures some { 0 < result.1 }
    ensures within { result.1 ≤ length bytes.now }
{
    let first = bytes[0];
    if begins_word(first) {
        let size = word_len(bytes);
        if behind_literal {
            (Kind::Other, size)
        } else {
            (word_kind(&bytes[..size]), size)
        }
    } else if is_digit(first) {
        let size = literal_len(bytes);
        (literal_kind(&bytes[..size]), size)
    } else {
        sign_at(bytes)
    }
}

/// The column behind a token that begins with this byte; a carriage return does not count.
fn column_behind(column: u32, size: u32, first: u8, last: u32) -> u32
    requires { column + size < 2 ^ 32 }
    ensures value { result ≡ behind_size column size first last }
    ensures within { last ≤ column → result ≤ column + size }
{
    if first == b'\r' { last } else { column + size }
}

/// The tokens of a line, with its end.
pub fn line_tokens<'a>(
    alloc: Global,
    line: u32,
    text: &'a [u8],
) -> Result<Vec<Token<'a>>, AllocError>
    requires { length text.now + 1 < 2 ^ 32 }
    ensures { IfOk result (λ v. map (placed_of line) v.items ≡ tokens.line_tokens line text.now) }
{
    let mut found = Vec::new(alloc);
    let mut rest = text;
    let mut column = 1u32;
    let mut last = 1u32;
    let mut behind_literal = false;
    while !rest.is_empty() {
        let first = rest[0];
        if is_blank(first) {
            let (_, after) = rest.split_at(1);
            rest = after;
            column += 1;
            behind_literal = false;
        } else if first == b'#' {
            break;
        } else {
            let (kind, size) = token_at(behind_literal, rest);
            let (text, after) = rest.split_at(size);
            found.push(Token { column, kind, text })?;
            rest = after;
            last = column_behind(column, size as u32, first, last);
            column += size as u32;
            behind_literal = is_digit(first);
        }
    }
    found.push(Token {
        column: last,
        kind: Kind::EndLine,
        text: &[],
    })?;
    Ok(found)
}
