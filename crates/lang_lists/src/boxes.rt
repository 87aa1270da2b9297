//! Reads boxes, a token at a time.

ghost use Rattle.std.specs.Prelude.{◌≡◌, ◌+◌, ◌<◌, ◌^◌, if◌then◌else◌, length, map, Some, None, IfSome, IfOk, IfErr};
ghost use Rattle.lang_specs.specs.Expressions.{AreJoined, IsBox};
ghost use Rattle.lang_tokens.specs.LineFaults.{marks, AreLiterals, IsLineWithin, IsLineFault};
ghost use Rattle.lang_lists.specs.BoxMachine.{IsNumValue, IsBoxValue, no_limits};
ghost use Rattle.std.specs.Option.{option_map};
ghost use Rattle.lang_specs.specs.Marks.{mark};
ghost use Rattle.lang_specs.specs.Tokens as tokens;
ghost use Rattle.lang_tokens.specs.Places.{placed_of};
ghost use Rattle.lang_tokens.specs.Machines.{AllValues, listed, next, step, run, start_of};
ghost use Rattle.lang_lists.specs.BoxMachine as machine;
ghost use Rattle.lang_lists.specs.Views.{num_of, box_of, place_of, reading_of};
ghost use Rattle.lang_tokens.specs.Gives.{Advances, GivesAt, Gives};

use frac128::Frac;
use lang_specs::Kind;
use lang_tokens::{
    LineFault, Token, is, line_tokens, literal_value, name_of, passed_alone, unless,
};
use lang_trees::BoxTree;
use std::alloc::Global;

/// A literal, with its sign.
#[derive(Clone, Copy, Debug)]
pub(crate) struct NumText<'a> {
    pub(crate) neg: bool,
    pub(crate) text: &'a [u8],
}

/// A box as it is written.
#[derive(Clone, Copy, Debug)]
pub(crate) struct BoxText<'a> {
    pub(crate) var: &'a [u8],
    pub(crate) lo: NumText<'a>,
    pub(crate) hi: NumText<'a>,
}

/// What a box wants next, and what stands before it in the box.
#[derive(Clone, Copy, Debug)]
pub(crate) enum BoxPlace<'a> {
    Var,
    In(&'a [u8]),
    Open(&'a [u8]),
    Lo(&'a [u8]),
    LoNumber(&'a [u8]),
    Comma(&'a [u8], NumText<'a>),
    Hi(&'a [u8], NumText<'a>),
    HiNumber(&'a [u8], NumText<'a>),
    Close(&'a [u8], NumText<'a>, NumText<'a>),
    Behind(BoxText<'a>),
}

/// Boxes that are complete, the place in the next one, and whether the line has ended.
#[derive(Drop)]
pub(crate) struct BoxReader<'a> {
    pub(crate) done: Vec<BoxText<'a>>,
    pub(crate) place: BoxPlace<'a>,
    pub(crate) has_ended: bool,
}

/// The literal, with its sign.
fn num<'a>(neg: bool, token: Token<'a>) -> NumText<'a>
    ensures { result ≡ record { neg = neg; text = token.entry.text } }
{
    NumText {
        neg,
        text: token.text,
    }
}

/// The place, where the token is what is wanted.
fn when<'a>(wanted: bool, place: BoxPlace<'a>) -> Option<BoxPlace<'a>>
    ensures { result ≡ (if wanted then Some place.entry else None) }
{
    if wanted { Some(place) } else { None }
}

/// The place behind a token where the lower number is wanted.
#[tactic(auto, unfolding(crate::specs::BoxMachine::in_box))]
fn at_lower<'a>(var: &'a [u8], token: Token<'a>) -> Option<BoxPlace<'a>>
    ensures { option_map place_of result ≡ machine.in_box (machine.at_lo var.now) (mark (placed_of 0 token.entry)) }
{
    if is(token.kind, Kind::Minus) {
        Some(BoxPlace::LoNumber(var))
    } else {
        let lo = num(false, token);
        when(is(token.kind, Kind::Number), BoxPlace::Comma(var, lo))
    }
}

/// The place behind a token where the upper number is wanted.
#[tactic(auto, unfolding(crate::specs::BoxMachine::in_box))]
fn at_upper<'a>(var: &'a [u8], lo: NumText<'a>, token: Token<'a>) -> Option<BoxPlace<'a>>
    ensures { option_map place_of result ≡ machine.in_box (machine.at_hi var.now (num_of lo.entry)) (mark (placed_of 0 token.entry)) }
{
    if is(token.kind, Kind::Minus) {
        Some(BoxPlace::HiNumber(var, lo))
    } else {
        let hi = num(false, token);
        when(is(token.kind, Kind::Number), BoxPlace::Close(var, lo, hi))
    }
}

/// The place behind a token in a box.
#[tactic(auto, unfolding(crate::specs::BoxMachine::in_box))]
fn in_box<'a>(place: BoxPlace<'a>, token: Token<'a>) -> Option<BoxPlace<'a>>
    ensures { option_map place_of result ≡ machine.in_box (place_of place.entry) (mark (placed_of 0 token.entry)) }
{
    let kind = token.kind;
    match place {
        BoxPlace::Var => when(is(kind, Kind::Name), BoxPlace::In(token.text)),
        BoxPlace::In(v) => when(is(kind, Kind::In), BoxPlace::Open(v)),
        BoxPlace::Open(v) => when(is(kind, Kind::Open), BoxPlace::Lo(v)),
        BoxPlace::Lo(v) => at_lower(v, token),
        BoxPlace::LoNumber(v) => {
            let lo = num(true, token);
            when(is(kind, Kind::Number), BoxPlace::Comma(v, lo))
        }
        BoxPlace::Comma(v, lo) => when(is(kind, Kind::Comma), BoxPlace::Hi(v, lo)),
        BoxPlace::Hi(v, lo) => at_upper(v, lo, token),
        BoxPlace::HiNumber(v, lo) => {
            let hi = num(true, token);
            when(is(kind, Kind::Number), BoxPlace::Close(v, lo, hi))
        }
        BoxPlace::Close(var, lo, hi) => {
            when(
                is(kind, Kind::Close),
                BoxPlace::Behind(BoxText { var, lo, hi }),
            )
        }
        BoxPlace::Behind(_) => None,
    }
}

/// The box that is complete here.
fn made<'a>(place: BoxPlace<'a>) -> Option<BoxText<'a>>
    ensures { option_map box_of result ≡ machine.made (place_of place.entry) }
{
    match place {
        BoxPlace::Behind(made) => Some(made),
        _ => None,
    }
}

/// The reader behind a token, whatever limit it passes.
fn advance<'a>(reader: BoxReader<'a>, token: Token<'a>) -> Result<BoxReader<'a>, LineFault>
    ensures { Advances reading_of (placed_of 0 token.entry) result (next machine.boxes (reading_of reader.entry) (mark (placed_of 0 token.entry))) }
{
    if reader.has_ended {
        return Err(LineFault::Syntax(token.column));
    }
    let mut done = reader.done;
    if let Some(place) = in_box(reader.place, token) {
        return Ok(BoxReader {
            done,
            place,
            has_ended: false,
        });
    }
    let has_ended = is(token.kind, Kind::EndLine);
    match made(reader.place) {
        Some(made) if has_ended || is(token.kind, Kind::Comma) => {
            done.push(made)?;
            Ok(BoxReader {
                done,
                place: BoxPlace::Var,
                has_ended,
            })
        }
        _ => Err(LineFault::Syntax(token.column)),
    }
}

/// The reader after a token.
fn step<'a>(line: u32, reader: BoxReader<'a>, token: Token<'a>) -> Result<BoxReader<'a>, LineFault>
    ensures { GivesAt reading_of (placed_of line token.entry) result (step (listed machine.boxes) (reading_of reader.entry) (placed_of line token.entry)) }
{
    let reader = advance(reader, token)?;
    unless(passed_alone(line, token), reader)
}

/// Reads the boxes of a line, behind its first word.
pub(crate) fn read_boxes<'a>(
    alloc: Global,
    line: u32,
    tokens: &[Token<'a>],
) -> Result<BoxReader<'a>, LineFault>
    ensures { Gives reading_of result (run (listed machine.boxes) (start_of machine.boxes) (map (placed_of line) tokens.now)) }
{
    let mut reader = BoxReader {
        done: Vec::new(alloc),
        place: BoxPlace::Var,
        has_ended: false,
    };
    for token in tokens {
        reader = step(line, reader, *token)?;
    }
    Ok(reader)
}

/// The number that a literal with its sign writes.
fn number<'a>(text: NumText<'a>) -> Option<Frac>
    ensures { IfSome result (IsNumValue (num_of text.entry)) }
{
    match literal_value(text.text) {
        Ok(size) => Some(if text.neg { size.neg() } else { size }),
        Err(_) => None,
    }
}

/// What the box says.
fn tree<'a>(alloc: Global, text: BoxText<'a>) -> Option<BoxTree>
    ensures { IfSome result (IsBoxValue (box_of text.entry)) }
{
    let var = name_of(alloc, text.var)?;
    let lo = number(text.lo)?;
    let hi = number(text.hi)?;
    Some(BoxTree::new(var, lo, hi))
}

/// What each box says.
fn trees<'a>(alloc: Global, texts: &[BoxText<'a>]) -> Result<Vec<BoxTree>, LineFault>
    ensures ok { IfOk result (λ v. AllValues IsBoxValue (map box_of texts.now) v.items) }
    ensures err { IfErr result (λ e. e ≡ LineFault.Memory) }
{
    let mut trees = Vec::new(alloc);
    for text in texts {
        match tree(alloc, *text) {
            Some(tree) => trees.push(tree)?,
            None => return Err(LineFault::Memory),
        }
    }
    Ok(trees)
}

/// The boxes that the tokens of a line spell, behind its first word.
pub fn line_boxes<'a>(
    alloc: Global,
    line: u32,
    tokens: &[Token<'a>],
) -> Result<Vec<BoxTree>, LineFault>
    requires { AreLiterals (marks (map (placed_of line) tokens.now)) }
    ensures ok { IfOk result (λ v. IsLineWithin (AreJoined IsBox) no_limits (marks (map (placed_of line) tokens.now)) v.items) }
    ensures fault { IfErr result (IsLineFault (AreJoined IsBox) no_limits (map (placed_of line) tokens.now)) }
{
    let reader = read_boxes(alloc, line, tokens)?;
    if !reader.has_ended {
        return Err(LineFault::Memory);
    }
    trees(alloc, &reader.done)
}

/// The boxes that the bytes of a line spell.
pub fn boxes_of_line(alloc: Global, line: u32, text: &[u8]) -> Result<Vec<BoxTree>, LineFault>
    requires { length text.now + 1 < 2 ^ 32 }
    ensures ok { IfOk result (λ v. IsLineWithin (AreJoined IsBox) no_limits (marks (tokens.line_tokens line text.now)) v.items) }
    ensures fault { IfErr result (IsLineFault (AreJoined IsBox) no_limits (tokens.line_tokens line text.now)) }
{
    let found = line_tokens(alloc, line, text)?;
    line_boxes(alloc, line, &found)
}
