//! Texts of models, read a line at a time.

ghost use Rattle.std.specs.Prelude.{◌≡◌, ◌↔◌, ◌+◌, ◌<◌, ◌≤◌, ◌^◌, ◌∷◌, [], List, length, map, IsTrue, IfOk, IfErr, MatchResult};
ghost use Rattle.lang_specs.specs.Tokens as tokens;
ghost use Rattle.lang_specs.specs.Lines.{unless_bare, end_of_text};
ghost use Rattle.lang_specs.specs.Trees as trees;
ghost use Rattle.lang_specs.specs.FirstFault.{IsSpelling, Fault, IsFirstFault};
ghost use Rattle.lang_tokens.specs.Places.{placed_of};
ghost use Rattle.lang_order.specs.declared.Place.TheVariants as places;
ghost use Rattle.lang_lines.specs.Lines.{says, HasLine};
ghost use Rattle.lang_texts.specs.Reading.{counts_of, located, version_behind, Leads, IsWordFault, AreLineTokens, Holds, GoesOn, FailsAt, Spells, IsTextFault, IsNoMore, Tells};

use crate::growing::{GrowingTrees, add, trees_of};
use crate::order::{Counts, count, next};
use lang_lines::{Line, line_body};
use lang_order::Place;
use lang_specs::{Kind, Which};
use lang_tokens::{LineFault, Token, is, line_tokens, next_line};
use lang_trees::Tree;
use std::alloc::{AllocError, Global};

/// The first fault of a text, or that memory ran out. Lines and columns are counted from 1, columns in bytes.
#[derive(Clone, Copy, Debug, PartialEq, Eq)]
pub enum LangFault {
    /// No model's text goes on with the token that begins here; the end of a line and of the text are tokens too.
    Syntax { line: u32, column: u32 },
    /// A token of this line passes a limit.
    Limit { line: u32, which: Which },
    Memory,
}

impl From<AllocError> for LangFault {
    ghost use Rattle.lang_texts.specs.declared.texts.LangFault.TheVariants.{Memory};

    ghost from_gives = { λ _ e. e ≡ Memory };

    fn from(_e: AllocError) -> LangFault {
        LangFault::Memory
    }
}

/// What the lines that were read say.
#[derive(Drop)]
pub(crate) struct State {
    pub(crate) place: Place,
    /// Whether they are of the second version.
    pub(crate) second: bool,
    pub(crate) counts: Counts,
    pub(crate) trees: Option<GrowingTrees>,
}

/// The fault of a line of this number.
fn located(line: u32, fault: LineFault) -> LangFault
    ensures { result ≡ located line fault }
{
    match fault {
        LineFault::Syntax(column) => LangFault::Syntax { line, column },
        LineFault::Limit(which) => LangFault::Limit { line, which },
        LineFault::Memory => LangFault::Memory,
    }
}

/// Where a line that begins with this word leads, and the counts with it.
fn lead<'a>(state: &State, line: u32, word: Token<'a>) -> Result<(Place, Counts), LangFault>
    ensures ok { IfOk result (Leads state.now (placed_of line word.entry)) }
    ensures fault { IfErr result (IsWordFault state.now (placed_of line word.entry)) }
{
    let fault = LangFault::Syntax {
        line,
        column: word.column,
    };
    let Some(place) = next(state.place, word.kind) else {
        return Err(fault);
    };
    if !state.second && is(word.kind, Kind::Obs) {
        return Err(fault);
    }
    match count(state.counts, word.kind) {
        Ok(counts) => Ok((place, counts)),
        Err(which) => Err(LangFault::Limit { line, which }),
    }
}

/// Whether the lines are of the second version, with one more.
fn version_behind(second: bool, said: &Line) -> bool
    ensures { result ≡ version_behind second (says said.now) }
{
    match said {
        Line::Version(second) => *second,
        _ => second,
    }
}

/// What the lines say with one more, which leads to this place and these counts.
fn with_line(
    alloc: Global,
    line: u32,
    said: Line,
    place: Place,
    counts: Counts,
    state: State,
) -> Result<State, AllocError>
    requires { HasLine line said }
    ensures { IfOk result (Holds line (says said) place (counts_of counts) state) }
{
    let second = version_behind(state.second, &said);
    let trees = add(alloc, line, said, state.trees)?;
    Ok(State {
        place,
        second,
        counts,
        trees,
    })
}

/// Reads a line that has a token before its end.
fn read_statement<'a>(
    alloc: Global,
    state: State,
    line: u32,
    word: Token<'a>,
    behind: &[Token<'a>],
) -> Result<State, LangFault>
    requires { AreLineTokens line (placed_of line word ∷ map (placed_of line) behind.now) }
    ensures ok { IfOk result (GoesOn (placed_of line word.entry ∷ map (placed_of line) behind.now) state) }
    ensures fault { IfErr result (FailsAt (placed_of line word.entry ∷ map (placed_of line) behind.now) state) }
{
    let (place, counts) = lead(&state, line, word)?;
    match line_body(alloc, state.second, line, word.kind, behind) {
        Ok(said) => Ok(with_line(alloc, line, said, place, counts, state)?),
        Err(fault) => Err(located(line, fault)),
    }
}

/// Reads a line; one with blanks and comment alone says nothing.
fn read_line(alloc: Global, state: State, line: u32, text: &[u8]) -> Result<State, LangFault>
    requires { length text.now + 1 < 2 ^ 32 }
    ensures ok { IfOk result (GoesOn (unless_bare (tokens.line_tokens line text.now)) state) }
    ensures fault { IfErr result (FailsAt (unless_bare (tokens.line_tokens line text.now)) state) }
{
    let found = line_tokens(alloc, line, text)?;
    match found.as_slice() {
        [word, behind @ ..] if !behind.is_empty() => {
            read_statement(alloc, state, line, *word, behind)
        }
        _ => Ok(state),
    }
}

/// Whether a text may end here.
fn may_end(place: Place) -> bool
    ensures { IsTrue result ↔ place ≡ places.End }
{
    matches!(place, Place::End)
}

/// The trees of a text that ends before the line of this number.
fn finish(alloc: Global, state: State, line: u32) -> Result<Vec<Tree>, LangFault>
    ensures ok { IfOk result (λ v. Spells (end_of_text line ∷ []) state v.items) }
    ensures fault { IfErr result (FailsAt (end_of_text line ∷ []) state) }
{
    if may_end(state.place) {
        Ok(trees_of(alloc, state.trees)?)
    } else {
        Err(LangFault::Syntax { line, column: 1 })
    }
}

/// The trees that a text spells, or its first fault.
fn read_lines(alloc: Global, text: &[u8]) -> Result<Vec<Tree>, LangFault>
    requires { length text.now ≤ 2 ^ 31 }
    ensures ok { IfOk result (λ v. IsSpelling text.now v.items) }
    ensures fault { IfErr result (IsTextFault text.now) }
{
    let mut state = State {
        place: Place::Start,
        second: false,
        counts: Counts {
            automata: 0,
            locs: 0,
            trans: 0,
        },
        trees: None,
    };
    let mut rest = text;
    let mut line = 1;
    while let Some((first, behind)) = next_line(rest) {
        state = read_line(alloc, state, line, first)?;
        rest = behind;
        line += 1;
    }
    finish(alloc, state, line)
}

/// The trees of the models that a text of at most 2^31 bytes spells, within all limits of the language, or its first fault.
///
/// A text that spells trees is read as these, and any other has exactly one first fault, which is told. `Memory` comes only
/// where there is none. Takes time in proportion to the text's length.
pub fn read_models(alloc: Global, text: &[u8]) -> Result<Vec<Tree>, LangFault>
    requires { length text.now ≤ 2 ^ 31 }
    ensures ok { IfOk result (λ v. IsSpelling text.now v.items) }
    ensures fault { IfErr result (IsTextFault text.now) }
    ensures found { (trees : List trees.Tree) → IsSpelling text.now trees → MatchResult result (λ v. v.items ≡ trees) IsNoMore }
    ensures first { (fault : Fault) → IsFirstFault text.now fault → MatchResult result (λ v. ⊥) (Tells fault) }
{
    read_lines(alloc, text)
}
