//! Reads lines that hold no list, a token at a time.

ghost use Rattle.std.specs.Prelude.{◌≡◌, ◌&&◌, Bool, ℕ, bytes_eq, map, IsTrue, Some, None, IfSome, IfOk, IfErr};
ghost use Rattle.std.specs.Option.{option_map};
ghost use Rattle.lang_specs.specs.declared.Kind.TheVariants as kinds;
ghost use Rattle.lang_specs.specs.Marks.{mark};
ghost use Rattle.lang_tokens.specs.Kinds.{same_kind};
ghost use Rattle.lang_tokens.specs.LineFaults.{marks, AreLiterals};
ghost use Rattle.lang_tokens.specs.Places.{placed_of};
ghost use Rattle.lang_tokens.specs.Machines.{step, run};
ghost use Rattle.lang_tokens.specs.Gives.{Advances, GivesAt, Gives};
ghost use Rattle.lang_lines.specs.Lines.{says, HasLine, IsRead, IsBodyFault};
ghost use Rattle.lang_lines.specs.ShortMachine as machine;
ghost use Rattle.lang_lines.specs.ShortMachine.{is_short, Ends};
ghost use Rattle.lang_lines.specs.Views.{short_of, place_of};

use crate::statements::Line;
use lang_specs::Kind;
use lang_tokens::{LineFault, Token, is, name_of, passed_alone, unless};
use std::alloc::Global;

/// What the line says, as it is written.
#[derive(Clone, Copy, Debug)]
pub(crate) enum Short<'a> {
    Version(bool),
    Automaton(&'a [u8]),
    Loc(&'a [u8], bool),
    End,
}

/// What is wanted next: a version, a name, `unsafe` or the end of the line, or the end of the line.
#[derive(Clone, Copy, Debug)]
pub(crate) enum Place<'a> {
    Version,
    Name,
    Loc,
    Unsafe(&'a [u8]),
    Behind(Short<'a>),
    Ended(Short<'a>),
}

/// The place behind the first word.
fn start<'a>(word: Kind) -> Place<'a>
    ensures { place_of result ≡ machine.start_at word }
{
    match word {
        Kind::Lha => Place::Version,
        Kind::Automaton => Place::Name,
        Kind::Loc => Place::Loc,
        _ => Place::Behind(Short::End),
    }
}

/// Whether the token is the literal that is spelled so.
#[tactic(auto, using(crate::proofs::ShortSteps::number_text))]
fn is_literal<'a>(token: Token<'a>, text: &[u8]) -> bool
    ensures { result ≡ same_kind token.entry.kind kinds.Number && bytes_eq (mark (placed_of 0 token.entry)).text text.now }
{
    is(token.kind, Kind::Number) && token.text == text
}

/// The version that the token writes.
fn version<'a>(token: Token<'a>) -> Option<bool>
    ensures { result ≡ machine.version_of (mark (placed_of 0 token.entry)) }
{
    if is_literal(token, b"1") {
        Some(false)
    } else if is_literal(token, b"2") {
        Some(true)
    } else {
        None
    }
}

/// The place behind a token.
#[tactic(auto, unfolding(crate::specs::ShortMachine::next_short))]
fn next<'a>(place: Place<'a>, token: Token<'a>) -> Option<Place<'a>>
    ensures { option_map place_of result ≡ machine.next_short (place_of place.entry) (mark (placed_of 0 token.entry)) }
{
    let text = token.text;
    match place {
        Place::Version => match version(token) {
            Some(second) => Some(Place::Behind(Short::Version(second))),
            None => None,
        },
        Place::Name if is(token.kind, Kind::Name) => Some(Place::Behind(Short::Automaton(text))),
        Place::Loc if is(token.kind, Kind::Name) => Some(Place::Unsafe(text)),
        Place::Unsafe(name) if is(token.kind, Kind::Unsafe) => {
            Some(Place::Behind(Short::Loc(name, true)))
        }
        Place::Unsafe(name) if is(token.kind, Kind::EndLine) => {
            Some(Place::Ended(Short::Loc(name, false)))
        }
        Place::Behind(said) if is(token.kind, Kind::EndLine) => Some(Place::Ended(said)),
        _ => None,
    }
}

/// The place behind a token, or that nothing allows it.
fn advance<'a>(place: Place<'a>, token: Token<'a>) -> Result<Place<'a>, LineFault>
    ensures { Advances place_of (placed_of 0 token.entry) result (machine.next_short (place_of place.entry) (mark (placed_of 0 token.entry))) }
{
    match next(place, token) {
        Some(place) => Ok(place),
        None => Err(LineFault::Syntax(token.column)),
    }
}

/// The place after a token.
fn step<'a>(
    word: Kind,
    line: u32,
    place: Place<'a>,
    token: Token<'a>,
) -> Result<Place<'a>, LineFault>
    ensures { GivesAt place_of (placed_of line token.entry) result (step (machine.short_line word) (place_of place.entry) (placed_of line token.entry)) }
{
    let place = advance(place, token)?;
    unless(passed_alone(line, token), place)
}

/// Reads a line behind its first word.
fn read_short<'a>(word: Kind, line: u32, tokens: &[Token<'a>]) -> Result<Place<'a>, LineFault>
    ensures { Gives place_of result (run (machine.short_line word) (machine.start_at word) (map (placed_of line) tokens.now)) }
{
    let mut place = start(word);
    for token in tokens {
        place = step(word, line, place, *token)?;
    }
    Ok(place)
}

/// What the line says.
fn said<'a>(alloc: Global, short: Short<'a>) -> Option<Line>
    ensures says { IfSome result (λ s. says s ≡ machine.statement_of (short_of short.entry)) }
    ensures line { IfSome result (λ s. (line : ℕ) → HasLine line s) }
{
    match short {
        Short::Version(second) => Some(Line::Version(second)),
        Short::Automaton(name) => Some(Line::Automaton(name_of(alloc, name)?)),
        Short::Loc(name, unsafe_loc) => {
            let name = name_of(alloc, name)?;
            Some(Line::Loc { name, unsafe_loc })
        }
        Short::End => Some(Line::End),
    }
}

/// What the line says that was read. That it has not ended, or holds a name that is none, cannot be with the tokens of a
/// line, and is answered as want of memory.
fn finished<'a>(alloc: Global, place: Place<'a>) -> Result<Line, LineFault>
    ensures ok { IfOk result (λ s. Ends (place_of place.entry) (says s)) }
    ensures line { IfOk result (λ s. (line : ℕ) → HasLine line s) }
    ensures err { IfErr result (λ e. e ≡ LineFault.Memory) }
{
    match place {
        Place::Ended(short) => match said(alloc, short) {
            Some(line) => Ok(line),
            None => Err(LineFault::Memory),
        },
        _ => Err(LineFault::Memory),
    }
}

/// What the tokens of a line say behind `lha`, `automaton`, `loc` or `end`.
pub(crate) fn line_short<'a>(
    alloc: Global,
    line: u32,
    word: Kind,
    tokens: &[Token<'a>],
) -> Result<Line, LineFault>
    requires literals { AreLiterals (marks (map (placed_of line) tokens.now)) }
    requires word { IsTrue (is_short word) }
    ensures ok { IfOk result (λ s. (second : Bool) → IsRead second word (marks (map (placed_of line) tokens.now)) (says s)) }
    ensures line { IfOk result (λ s. HasLine line s) }
    ensures fault { IfErr result (λ e. (second : Bool) → IsBodyFault second line word (map (placed_of line) tokens.now) e) }
{
    let place = read_short(word, line, tokens)?;
    finished(alloc, place)
}
