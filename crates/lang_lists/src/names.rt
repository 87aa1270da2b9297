//! Reads the names of a list of variables, a token at a time.

ghost use Rattle.std.specs.Prelude.{◌≡◌, ◌+◌, ◌<◌, ◌^◌, length, map, Some, None, IfOk, IfErr};
ghost use Rattle.lang_specs.specs.Marks.{mark};
ghost use Rattle.lang_specs.specs.Tokens as tokens;
ghost use Rattle.lang_specs.specs.Expressions.{AreJoined, IsName};
ghost use Rattle.lang_tokens.specs.LineFaults.{marks, AreLiterals, IsLineWithin, IsLineFault};
ghost use Rattle.lang_tokens.specs.Places.{placed_of};
ghost use Rattle.lang_tokens.specs.Machines.{AllValues, listed, next, step, run, start_of};
ghost use Rattle.lang_tokens.specs.Gives.{Advances, GivesAt, Gives};
ghost use Rattle.lang_lists.specs.NameMachine as machine;
ghost use Rattle.lang_lists.specs.SixAtMost.{six_at_most};
ghost use Rattle.lang_lists.specs.NameViews.{reading_of};

use crate::lists::{has_room, passed};
use lang_specs::Kind;
use lang_tokens::{LineFault, Token, is, line_tokens, name_of, unless};
use lha_model::Name;
use std::alloc::Global;

/// Names that are complete, the one that stands before, and whether the line has ended.
#[derive(Drop)]
pub(crate) struct NameReader<'a> {
    pub(crate) done: Vec<&'a [u8]>,
    pub(crate) place: Option<&'a [u8]>,
    pub(crate) has_ended: bool,
}

/// The reader behind a token, whatever limit it passes.
#[tactic(auto, unfolding(crate::specs::NameMachine::in_name))]
fn advance<'a>(reader: NameReader<'a>, token: Token<'a>) -> Result<NameReader<'a>, LineFault>
    ensures { Advances reading_of (placed_of 0 token.entry) result (next machine.names (reading_of reader.entry) (mark (placed_of 0 token.entry))) }
{
    if reader.has_ended {
        return Err(LineFault::Syntax(token.column));
    }
    let mut done = reader.done;
    let has_ended = is(token.kind, Kind::EndLine);
    match reader.place {
        None if is(token.kind, Kind::Name) => Ok(NameReader {
            done,
            place: Some(token.text),
            has_ended: false,
        }),
        Some(name) if has_ended || is(token.kind, Kind::Comma) => {
            done.push(name)?;
            Ok(NameReader {
                done,
                place: None,
                has_ended,
            })
        }
        _ => Err(LineFault::Syntax(token.column)),
    }
}

/// The reader after a token.
fn step<'a>(
    line: u32,
    reader: NameReader<'a>,
    token: Token<'a>,
) -> Result<NameReader<'a>, LineFault>
    ensures { GivesAt reading_of (placed_of line token.entry) result (step (listed machine.names) (reading_of reader.entry) (placed_of line token.entry)) }
{
    let before = has_room(reader.has_ended, reader.done.len());
    let reader = advance(reader, token)?;
    let behind = has_room(reader.has_ended, reader.done.len());
    unless(passed(line, before, behind, token), reader)
}

/// Reads the names of a line, behind its first word.
pub(crate) fn read_names<'a>(
    alloc: Global,
    line: u32,
    tokens: &[Token<'a>],
) -> Result<NameReader<'a>, LineFault>
    ensures { Gives reading_of result (run (listed machine.names) (start_of machine.names) (map (placed_of line) tokens.now)) }
{
    let mut reader = NameReader {
        done: Vec::new(alloc),
        place: None,
        has_ended: false,
    };
    for token in tokens {
        reader = step(line, reader, *token)?;
    }
    Ok(reader)
}

/// What each name says.
fn trees<'a>(alloc: Global, texts: &[&'a [u8]]) -> Result<Vec<Name>, LineFault>
    ensures ok { IfOk result (λ v. AllValues (λ x y. x ≡ y) (map (λ x. x.now) texts.now) v.items) }
    ensures err { IfErr result (λ e. e ≡ LineFault.Memory) }
{
    let mut names = Vec::new(alloc);
    for text in texts {
        match name_of(alloc, text) {
            Some(name) => names.push(name)?,
            None => return Err(LineFault::Memory),
        }
    }
    Ok(names)
}

/// The names that the tokens of a line spell, behind its first word.
pub fn line_names<'a>(
    alloc: Global,
    line: u32,
    tokens: &[Token<'a>],
) -> Result<Vec<Name>, LineFault>
    requires { AreLiterals (marks (map (placed_of line) tokens.now)) }
    ensures ok { IfOk result (λ v. IsLineWithin (AreJoined IsName) six_at_most (marks (map (placed_of line) tokens.now)) v.items) }
    ensures fault { IfErr result (IsLineFault (AreJoined IsName) six_at_most (map (placed_of line) tokens.now)) }
{
    let reader = read_names(alloc, line, tokens)?;
    if !reader.has_ended {
        return Err(LineFault::Memory);
    }
    trees(alloc, &reader.done)
}

/// The names that the bytes of a line spell.
pub fn names_of_line(alloc: Global, line: u32, text: &[u8]) -> Result<Vec<Name>, LineFault>
    requires { length text.now + 1 < 2 ^ 32 }
    ensures ok { IfOk result (λ v. IsLineWithin (AreJoined IsName) six_at_most (marks (tokens.line_tokens line text.now)) v.items) }
    ensures fault { IfErr result (IsLineFault (AreJoined IsName) six_at_most (tokens.line_tokens line text.now)) }
{
    let found = line_tokens(alloc, line, text)?;
    line_names(alloc, line, &found)
}
