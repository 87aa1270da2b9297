//! The fields of a line.

ghost use Rattle.std.specs.Prelude.{◌≡◌, ◌≢◌, ◌==◌, ℕ, List, [], All, map, length, take, drop, slice_index, ◌+◌, true, false, Some, None, IfOk, IfErr, IfSome, IfNone, ◌<◌, ◌≤◌};
ghost use Rattle.std.specs.List.{list_any};
ghost use Rattle.std.specs.Str.{is_utf8};
ghost use Rattle.std.specs.Option.{option_map};
ghost use Rattle.csv.specs.Machine.{next_record};
ghost use Rattle.csv.specs.Reading.{default_config, strip_bom};
ghost use Rattle.csv.specs.Records as record_words;
ghost use Rattle.csv.specs.declared.parser.State.TheVariants as st;
ghost use Rattle.report_specs.specs.Lines.{HasNoFeed};
ghost use Rattle.log_specs.specs.Fields as fields;
ghost use Rattle.log_specs.specs.Fields.{fields_of};
ghost use Rattle.log_reader.specs.Commas.{between_commas, trimmed};
ghost use Rattle.log_reader.specs.Records.{fields_in, IsRead, IsUnread};

use crate::RowRefusal;
use csv::{ByteRecord, ReaderBuilder};
use std::alloc::{AllocError, Global};

/// A line of more bytes is not read.
const MOST_BYTES: usize = 4096;

/// A line that is read: the line itself, or what `csv` makes of it.
#[derive(Drop)]
pub(crate) enum Record<'a> {
    /// A line without a quotation mark or a byte order mark: its fields stand between its commas.
    Plain(&'a [u8]),
    Quoted(ByteRecord),
}

/// Whether a byte is a space or a tab.
fn is_blank(byte: u8) -> bool
    ensures { result ≡ fields.is_blank byte }
{
    byte == b' ' || byte == b'\t'
}

/// A field without blanks before it.
fn after_blanks(field: &[u8]) -> &[u8]
    ensures { result.now ≡ fields.after_blanks field.now }
{
    let mut left = field;
    while let Some((first, rest)) = left.split_first() {
        if !is_blank(*first) {
            return left;
        }
        left = rest;
    }
    left
}

/// A field without blanks behind it.
fn up_to_blanks(field: &[u8]) -> &[u8]
    ensures { result.now ≡ fields.up_to_blanks field.now }
{
    let mut left = field;
    while let Some((last, rest)) = left.split_last() {
        if !is_blank(*last) {
            return left;
        }
        left = rest;
    }
    left
}

/// A field without blanks at its ends.
fn without_blanks(field: &[u8]) -> &[u8]
    ensures { result.now ≡ fields.without_blanks field.now }
{
    up_to_blanks(after_blanks(field))
}

/// Whether the line has too many bytes.
fn is_long(line: &[u8]) -> bool
    ensures { result ≡ fields.is_long line.now }
{
    line.len() > MOST_BYTES
}

/// Whether the byte stands in the line.
fn has_byte(line: &[u8], wanted: u8) -> bool
    ensures { result ≡ list_any (λ b. b == wanted) line.now }
{
    line.iter().any(|byte| *byte == wanted)
}

/// Whether the line is UTF-8.
fn is_utf8(line: &[u8]) -> bool
    ensures { result ≡ is_utf8 line.now }
{
    match str::from_utf8(line) {
        Ok(_) => true,
        Err(_) => false,
    }
}

/// Whether the line is UTF-8 and holds no carriage return.
fn is_text(line: &[u8]) -> bool
    ensures { result ≡ fields.is_text line.now }
{
    is_utf8(line) && !has_byte(line, b'\r')
}

/// Whether the line may begin with a byte order mark.
fn may_be_marked(line: &[u8]) -> bool
    ensures { result ≡ false → strip_bom line.now ≡ line.now }
{
    !line.is_empty() && line[0] == 0xEF
}

/// Whether the fields of the line stand between its commas.
fn is_plain(line: &[u8]) -> bool
    ensures mark { result ≡ true → strip_bom line.now ≡ line.now }
    ensures quote { result ≡ true → list_any (λ b. b == 34) line.now ≡ false }
{
    !may_be_marked(line) && !has_byte(line, b'"')
}

/// The first record that `csv` makes of a line, if there is one.
fn quoted_record(alloc: Global, line: &[u8]) -> Result<Option<ByteRecord>, AllocError>
    ensures { IfOk result (λ o. option_map record_words.fields_of o ≡ option_map (λ p. p.0) (next_record default_config st.StartRecord [] [] (strip_bom line.now))) }
{
    let mut reader = ReaderBuilder::new()
        .has_headers(false)
        .from_reader(alloc, line);
    let mut row = ByteRecord::new(alloc);
    match reader.read_byte_record(&mut row) {
        Ok(true) => Ok(Some(row)),
        Ok(false) => Ok(None),
        Err(_) => Err(AllocError),
    }
}

/// Where the first comma stands.
fn first_comma(bytes: &[u8]) -> Option<usize>
    ensures none { IfNone result (All (λ b. b ≢ 44) bytes.now) }
    ensures some { IfSome result (λ at. (at < length bytes.now) × (slice_index bytes.now at ≡ 44) × All (λ b. b ≢ 44) (take at bytes.now)) }
{
    memchr::memchr(b',', bytes)
}

/// The bytes behind the one at a place.
fn behind(bytes: &[u8], at: usize) -> &[u8]
    requires { at < length bytes.now }
    ensures { result.now ≡ drop (at + 1) bytes.now }
{
    &bytes[at..][1..]
}

/// The fields of a line between its commas.
fn fields_between<'a>(alloc: Global, line: &'a [u8]) -> Result<Vec<&'a [u8]>, AllocError>
    ensures { IfOk result (λ found. map (λ f. f.now) found.items ≡ trimmed (between_commas line.now)) }
{
    let mut found = Vec::new(alloc);
    let mut rest = line;
    while let Some(at) = first_comma(rest) {
        found.push(without_blanks(&rest[..at]))?;
        rest = behind(rest, at);
    }
    found.push(without_blanks(rest))?;
    Ok(found)
}

/// The fields of a record.
fn fields_within<'a>(alloc: Global, row: &'a ByteRecord) -> Result<Vec<&'a [u8]>, AllocError>
    ensures { IfOk result (λ found. map (λ f. f.now) found.items ≡ trimmed (record_words.fields_of row.now)) }
{
    let mut found = Vec::new(alloc);
    for at in 0..row.len() {
        if let Some(field) = row.get(at) {
            found.push(without_blanks(field))?;
        }
    }
    Ok(found)
}

impl<'a> Record<'a> {
    /// The record that a line is, where it may be read.
    pub(crate) fn read(alloc: Global, line: &'a [u8]) -> Result<Record<'a>, RowRefusal>
        requires { HasNoFeed line.now }
        ensures read { IfOk result (λ r. IsRead line.now (fields_in r)) }
        ensures unread { IfErr result (λ e. IsUnread e line.now) }
    {
        if is_long(line) {
            return Err(RowRefusal::Long);
        }
        if !is_text(line) {
            return Err(RowRefusal::Text);
        }
        if is_plain(line) {
            return Ok(Record::Plain(line));
        }
        match quoted_record(alloc, line)? {
            Some(row) => Ok(Record::Quoted(row)),
            None => Ok(Record::Plain(b"")),
        }
    }

    /// Its fields, without blanks at their ends.
    pub(crate) fn fields(&self, alloc: Global) -> Result<Vec<&[u8]>, AllocError>
        ensures { IfOk result (λ found. map (λ f. f.now) found.items ≡ fields_in self.now) }
    {
        match self {
            Record::Plain(line) => fields_between(alloc, line),
            Record::Quoted(row) => fields_within(alloc, row),
        }
    }
}
