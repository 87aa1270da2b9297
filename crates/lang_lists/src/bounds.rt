//! Reads tolerances of variables, a token at a time.

ghost use Rattle.std.specs.Prelude.{◌≡◌, ◌+◌, ◌<◌, ◌^◌, length, map, Some, None, IfSome, IfOk, IfErr};
ghost use Rattle.std.specs.Option.{option_map};
ghost use Rattle.lang_specs.specs.Marks.{mark};
ghost use Rattle.lang_specs.specs.Tokens as tokens;
ghost use Rattle.lang_specs.specs.Expressions.{AreJoined, IsBound};
ghost use Rattle.lang_tokens.specs.LineFaults.{marks, AreLiterals, IsLineWithin, IsLineFault};
ghost use Rattle.lang_tokens.specs.Places.{placed_of};
ghost use Rattle.lang_tokens.specs.Machines.{AllValues, listed, next, step, run, start_of};
ghost use Rattle.lang_tokens.specs.Gives.{Advances, GivesAt, Gives};
ghost use Rattle.lang_lists.specs.BoundMachine as machine;
ghost use Rattle.lang_lists.specs.BoundMachine.{IsBoundValue};
ghost use Rattle.lang_lists.specs.SixAtMost.{six_at_most};
ghost use Rattle.lang_lists.specs.BoundViews.{bound_of, place_of, reading_of};

use crate::lists::{has_room, passed};
use lang_specs::Kind;
use lang_tokens::{LineFault, Token, is, line_tokens, literal_value, name_of, unless};
use lang_trees::BoundTree;
use std::alloc::Global;

/// A bound as it is written.
#[derive(Clone, Copy, Debug)]
pub(crate) struct BoundText<'a> {
    pub(crate) var: &'a [u8],
    pub(crate) text: &'a [u8],
}

/// What a bound wants next, and what stands before it in the bound.
#[derive(Clone, Copy, Debug)]
pub(crate) enum BoundPlace<'a> {
    Var,
    Within(&'a [u8]),
    Literal(&'a [u8]),
    Behind(BoundText<'a>),
}

/// Bounds that are complete, the place in the next one, and whether the line has ended.
#[derive(Drop)]
pub(crate) struct BoundReader<'a> {
    pub(crate) done: Vec<BoundText<'a>>,
    pub(crate) place: BoundPlace<'a>,
    pub(crate) has_ended: bool,
}

/// The place behind a token in a bound.
#[tactic(auto, unfolding(crate::specs::BoundMachine::in_bound))]
fn in_bound<'a>(place: BoundPlace<'a>, token: Token<'a>) -> Option<BoundPlace<'a>>
    ensures { option_map place_of result ≡ machine.in_bound (place_of place.entry) (mark (placed_of 0 token.entry)) }
{
    let text = token.text;
    match place {
        BoundPlace::Var if is(token.kind, Kind::Name) => Some(BoundPlace::Within(text)),
        BoundPlace::Within(v) if is(token.kind, Kind::Within) => Some(BoundPlace::Literal(v)),
        BoundPlace::Literal(var) if is(token.kind, Kind::Number) => {
            Some(BoundPlace::Behind(BoundText { var, text }))
        }
        _ => None,
    }
}

/// The bound that is complete here.
fn made<'a>(place: BoundPlace<'a>) -> Option<BoundText<'a>>
    ensures { option_map bound_of result ≡ machine.made (place_of place.entry) }
{
    match place {
        BoundPlace::Behind(made) => Some(made),
        _ => None,
    }
}

/// The reader behind a token, whatever limit it passes.
fn advance<'a>(reader: BoundReader<'a>, token: Token<'a>) -> Result<BoundReader<'a>, LineFault>
    ensures { Advances reading_of (placed_of 0 token.entry) result (next machine.bounds (reading_of reader.entry) (mark (placed_of 0 token.entry))) }
{
    if reader.has_ended {
        return Err(LineFault::Syntax(token.column));
    }
    let mut done = reader.done;
    if let Some(place) = in_bound(reader.place, token) {
        return Ok(BoundReader {
            done,
            place,
            has_ended: false,
        });
    }
    let has_ended = is(token.kind, Kind::EndLine);
    match made(reader.place) {
        Some(made) if has_ended || is(token.kind, Kind::Comma) => {
            done.push(made)?;
            Ok(BoundReader {
                done,
                place: BoundPlace::Var,
                has_ended,
            })
        }
        _ => Err(LineFault::Syntax(token.column)),
    }
}

/// The reader after a token.
fn step<'a>(
    line: u32,
    reader: BoundReader<'a>,
    token: Token<'a>,
) -> Result<BoundReader<'a>, LineFault>
    ensures { GivesAt reading_of (placed_of line token.entry) result (step (listed machine.bounds) (reading_of reader.entry) (placed_of line token.entry)) }
{
    let before = has_room(reader.has_ended, reader.done.len());
    let reader = advance(reader, token)?;
    let behind = has_room(reader.has_ended, reader.done.len());
    unless(passed(line, before, behind, token), reader)
}

/// Reads the bounds of a line, behind its first word.
pub(crate) fn read_bounds<'a>(
    alloc: Global,
    line: u32,
    tokens: &[Token<'a>],
) -> Result<BoundReader<'a>, LineFault>
    ensures { Gives reading_of result (run (listed machine.bounds) (start_of machine.bounds) (map (placed_of line) tokens.now)) }
{
    let mut reader = BoundReader {
        done: Vec::new(alloc),
        place: BoundPlace::Var,
        has_ended: false,
    };
    for token in tokens {
        reader = step(line, reader, *token)?;
    }
    Ok(reader)
}

/// What the bound says.
fn tree<'a>(alloc: Global, text: BoundText<'a>) -> Option<BoundTree>
    ensures { IfSome result (IsBoundValue (bound_of text.entry)) }
{
    let var = name_of(alloc, text.var)?;
    match literal_value(text.text) {
        Ok(within) => Some(BoundTree::new(var, within)),
        Err(_) => None,
    }
}

/// What each bound says.
fn trees<'a>(alloc: Global, texts: &[BoundText<'a>]) -> Result<Vec<BoundTree>, LineFault>
    ensures ok { IfOk result (λ v. AllValues IsBoundValue (map bound_of texts.now) v.items) }
    ensures err { IfErr result (λ e. e ≡ LineFault.Memory) }
{
    let mut trees = Vec::new(alloc);
    for text in texts {
        match tree(alloc, *text) {
            Some(tree) => trees.push(tree)?,
            None => return Err(LineFault::Memory),
        }
    }
    Ok(trees)
}

/// The bounds that the tokens of a line spell, behind its first word.
pub fn line_bounds<'a>(
    alloc: Global,
    line: u32,
    tokens: &[Token<'a>],
) -> Result<Vec<BoundTree>, LineFault>
    requires { AreLiterals (marks (map (placed_of line) tokens.now)) }
    ensures ok { IfOk result (λ v. IsLineWithin (AreJoined IsBound) six_at_most (marks (map (placed_of line) tokens.now)) v.items) }
    ensures fault { IfErr result (IsLineFault (AreJoined IsBound) six_at_most (map (placed_of line) tokens.now)) }
{
    let reader = read_bounds(alloc, line, tokens)?;
    if !reader.has_ended {
        return Err(LineFault::Memory);
    }
    trees(alloc, &reader.done)
}

/// The bounds that the bytes of a line spell.
pub fn bounds_of_line(alloc: Global, line: u32, text: &[u8]) -> Result<Vec<BoundTree>, LineFault>
    requires { length text.now + 1 < 2 ^ 32 }
    ensures ok { IfOk result (λ v. IsLineWithin (AreJoined IsBound) six_at_most (marks (tokens.line_tokens line text.now)) v.items) }
    ensures fault { IfErr result (IsLineFault (AreJoined IsBound) six_at_most (tokens.line_tokens line text.now)) }
{
    let found = line_tokens(alloc, line, text)?;
    line_bounds(alloc, line, &found)
}
