//! Reads a transition, a token at a time.

ghost use Rattle.std.specs.Prelude.{◌≡◌, ◌+◌, ◌<◌, ◌^◌, if◌then◌else◌, length, map, Some, None, Ok, Err, IfOk, IfErr};
ghost use Rattle.std.specs.Option.{option_map};
ghost use Rattle.lang_specs.specs.declared.Which.TheVariants as which;
ghost use Rattle.lang_specs.specs.Marks.{mark};
ghost use Rattle.lang_specs.specs.Tokens as tokens;
ghost use Rattle.lang_tokens.specs.LineFaults.{marks, AreLiterals, IsLineWithin, IsLineFault};
ghost use Rattle.lang_tokens.specs.Places.{placed_of};
ghost use Rattle.lang_tokens.specs.Machines.{start_of, next, step, run};
ghost use Rattle.lang_tokens.specs.Gives.{Advances, GivesAt, Gives};
ghost use Rattle.lang_rows.specs.RowMachine.{at_first, Ends};
ghost use Rattle.lang_rows.specs.Views as guards;
ghost use Rattle.lang_transitions.specs.ActMachine as the_acts;
ghost use Rattle.lang_transitions.specs.ActViews.{reading_of, KnowsFew};
ghost use Rattle.lang_transitions.specs.TransitionMachine as machine;
ghost use Rattle.lang_transitions.specs.TransitionMachine.{IsTransition, transition_limits, GuardSays, Says};
ghost use Rattle.lang_transitions.specs.Views.{transition, has_room, ActsEnd, names_of, state_of, Knows};

use crate::acts::{ActReader, act_trees, fresh_reader, has_few_terms};
use lang_rows::rows;
use lang_rows::rows::{Room, RowsReader};
use lang_specs::Kind;
use lang_tokens::{LineFault, Token, is, line_tokens, name_of, unless};
use lang_trees::{ActTree, RowTree, TransTree};
use lha_model::Name;
use std::alloc::Global;

/// The locations that a transition leaves and enters, and its label, as they are written.
#[derive(Clone, Copy, Debug)]
pub(crate) struct NamesText<'a> {
    pub(crate) from: &'a [u8],
    pub(crate) to: &'a [u8],
    pub(crate) label: &'a [u8],
}

/// What the line wants next, with the names before it. Behind the label it has ended, or its guard is read, or its acts, with
/// the guard before them, if there is one.
#[derive(Drop)]
pub(crate) enum TransitionReader<'a> {
    From,
    Arrow(&'a [u8]),
    To(&'a [u8]),
    As(&'a [u8], &'a [u8]),
    Label(&'a [u8], &'a [u8]),
    BehindLabel(NamesText<'a>),
    Ended(NamesText<'a>),
    Guard(NamesText<'a>, RowsReader<'a>),
    Acts(NamesText<'a>, Option<RowsReader<'a>>, ActReader<'a>),
}

/// The reader behind a token, where that is what is wanted.
fn when<'a>(
    wanted: bool,
    reader: TransitionReader<'a>,
    token: Token<'a>,
) -> Result<TransitionReader<'a>, LineFault>
    ensures { result ≡ (if wanted then Ok reader.entry else Err (LineFault.Syntax token.entry.column)) }
{
    if wanted {
        Ok(reader)
    } else {
        Err(LineFault::Syntax(token.column))
    }
}

/// The reader behind a token that stands behind the label.
fn behind_label<'a>(
    alloc: Global,
    names: NamesText<'a>,
    token: Token<'a>,
) -> Result<TransitionReader<'a>, LineFault>
    ensures next { Advances state_of (placed_of 0 token.entry) result (machine.next_behind at_first (start_of the_acts.acts) (names_of names.entry) (mark (placed_of 0 token.entry))) }
    ensures few { IfOk result Knows }
{
    if is(token.kind, Kind::When) {
        Ok(TransitionReader::Guard(names, RowsReader::First))
    } else if is(token.kind, Kind::Set) {
        let acts = fresh_reader(alloc);
        Ok(TransitionReader::Acts(names, None, acts))
    } else {
        let ends = is(token.kind, Kind::EndLine);
        when(ends, TransitionReader::Ended(names), token)
    }
}

/// The reader behind a token in the guard. What is wanted before `set` is what is wanted before the end of a line of
/// constraints.
#[tactic(auto, unfolding(crate::specs::TransitionMachine::next_state))]
fn in_guard<'a>(
    alloc: Global,
    strict: bool,
    names: NamesText<'a>,
    guard: RowsReader<'a>,
    token: Token<'a>,
) -> Result<TransitionReader<'a>, LineFault>
    ensures next { Advances state_of (placed_of 0 token.entry) result ((transition strict).next (machine.in_guard (names_of names.entry) (guards.state_of guard.entry)) (mark (placed_of 0 token.entry))) }
    ensures few { IfOk result Knows }
{
    if is(token.kind, Kind::Set) {
        let end = Token {
            column: token.column,
            kind: Kind::EndLine,
            text: &[],
        };
        let guard = rows::advance(alloc, strict, guard, end)?;
        let acts = fresh_reader(alloc);
        Ok(TransitionReader::Acts(names, Some(guard), acts))
    } else {
        let guard = rows::advance(alloc, strict, guard, token)?;
        Ok(TransitionReader::Guard(names, guard))
    }
}

/// The reader behind a token in the acts.
fn in_acts<'a>(
    alloc: Global,
    names: NamesText<'a>,
    guard: Option<RowsReader<'a>>,
    acts: ActReader<'a>,
    token: Token<'a>,
) -> Result<TransitionReader<'a>, LineFault>
    requires { KnowsFew acts }
    ensures next { Advances state_of (placed_of 0 token.entry) result (machine.in_acts_if (names_of names.entry) (option_map guards.state_of guard.entry) (next the_acts.acts (reading_of acts.entry) (mark (placed_of 0 token.entry)))) }
    ensures few { IfOk result Knows }
{
    let acts = crate::acts::advance(alloc, acts, token)?;
    Ok(TransitionReader::Acts(names, guard, acts))
}

/// The reader behind a token, whatever limit it passes.
#[tactic(auto, unfolding(crate::specs::TransitionMachine::next_state))]
fn advance<'a>(
    alloc: Global,
    strict: bool,
    reader: TransitionReader<'a>,
    token: Token<'a>,
) -> Result<TransitionReader<'a>, LineFault>
    requires { Knows reader }
    ensures next { Advances state_of (placed_of 0 token.entry) result ((transition strict).next (state_of reader.entry) (mark (placed_of 0 token.entry))) }
    ensures few { IfOk result Knows }
{
    let kind = token.kind;
    let text = token.text;
    match reader {
        TransitionReader::From => {
            when(is(kind, Kind::Name), TransitionReader::Arrow(text), token)
        }
        TransitionReader::Arrow(from) => {
            when(is(kind, Kind::Arrow), TransitionReader::To(from), token)
        }
        TransitionReader::To(from) => {
            when(
                is(kind, Kind::Name),
                TransitionReader::As(from, text),
                token,
            )
        }
        TransitionReader::As(from, to) => {
            when(is(kind, Kind::As), TransitionReader::Label(from, to), token)
        }
        TransitionReader::Label(from, to) => {
            let names = NamesText {
                from,
                to,
                label: text,
            };
            when(
                is(kind, Kind::Name),
                TransitionReader::BehindLabel(names),
                token,
            )
        }
        TransitionReader::BehindLabel(names) => behind_label(alloc, names, token),
        TransitionReader::Ended(_) => Err(LineFault::Syntax(token.column)),
        TransitionReader::Guard(names, guard) => in_guard(alloc, strict, names, guard, token),
        TransitionReader::Acts(names, guard, acts) => { in_acts(alloc, names, guard, acts, token) }
    }
}

/// What room there is for rows of the guard, and for terms of the guard and of the acts.
fn room_left<'a>(reader: &TransitionReader<'a>) -> Room
    requires { Knows reader.now }
    ensures rows { result.rows ≡ has_room which.Rows (state_of reader.now) }
    ensures terms { result.terms ≡ has_room which.Terms (state_of reader.now) }
{
    match reader {
        TransitionReader::Guard(_, guard) => rows::room_left(guard),
        TransitionReader::Acts(_, None, acts) => Room {
            rows: true,
            terms: has_few_terms(acts),
        },
        TransitionReader::Acts(_, Some(guard), acts) => {
            let room = rows::room_left(guard);
            Room {
                rows: room.rows,
                terms: room.terms && has_few_terms(acts),
            }
        }
        _ => Room {
            rows: true,
            terms: true,
        },
    }
}

/// The reader after a token.
fn step<'a>(
    alloc: Global,
    strict: bool,
    line: u32,
    reader: TransitionReader<'a>,
    token: Token<'a>,
) -> Result<TransitionReader<'a>, LineFault>
    requires { Knows reader }
    ensures next { GivesAt state_of (placed_of line token.entry) result (step (transition strict) (state_of reader.entry) (placed_of line token.entry)) }
    ensures few { IfOk result Knows }
{
    let before = room_left(&reader);
    let reader = advance(alloc, strict, reader, token)?;
    let behind = room_left(&reader);
    unless(rows::passed(line, before, behind, token), reader)
}

/// Reads the transition of a line, behind its first word.
fn read_transition<'a>(
    alloc: Global,
    strict: bool,
    line: u32,
    tokens: &[Token<'a>],
) -> Result<TransitionReader<'a>, LineFault>
    ensures { Gives state_of result (run (transition strict) machine.at_from (map (placed_of line) tokens.now)) }
{
    let mut reader = TransitionReader::From;
    for token in tokens {
        reader = step(alloc, strict, line, reader, *token)?;
    }
    Ok(reader)
}

/// The name that these bytes are. A token that is a name and keeps to its limit is one.
fn name(alloc: Global, text: &[u8]) -> Result<Name, LineFault>
    ensures ok { IfOk result (λ n. n ≡ text.now) }
    ensures err { IfErr result (λ e. e ≡ LineFault.Memory) }
{
    match name_of(alloc, text) {
        Some(name) => Ok(name),
        None => Err(LineFault::Memory),
    }
}

/// The transition of these parts.
fn tree<'a>(
    alloc: Global,
    line: u32,
    names: NamesText<'a>,
    guard: Vec<RowTree>,
    acts: Vec<ActTree>,
) -> Result<TransTree, LineFault>
    ensures ok { IfOk result (λ t. t ≡ record { line = line; from = names.entry.from.now; to = names.entry.to.now; label = names.entry.label.now; guard = guard.items; acts = acts.items }) }
    ensures err { IfErr result (λ e. e ≡ LineFault.Memory) }
{
    let from = name(alloc, names.from)?;
    let to = name(alloc, names.to)?;
    let label = name(alloc, names.label)?;
    Ok(TransTree::new(line, from, to, label, guard, acts))
}

/// The constraints of the guard, none where there is no guard.
fn guard_rows<'a>(alloc: Global, guard: &Option<RowsReader<'a>>) -> Result<Vec<RowTree>, LineFault>
    ensures ok { IfOk result (λ v. GuardSays Ends (option_map guards.state_of guard.now) v.items) }
    ensures err { IfErr result (λ e. e ≡ LineFault.Memory) }
{
    match guard {
        None => Ok(Vec::new(alloc)),
        Some(guard) => rows::finished(alloc, guard),
    }
}

/// The acts that were read. The tokens of a line end with its end, so they have ended.
fn ended_acts<'a>(alloc: Global, acts: &ActReader<'a>) -> Result<Vec<ActTree>, LineFault>
    ensures ok { IfOk result (λ v. ActsEnd (reading_of acts.now) v.items) }
    ensures err { IfErr result (λ e. e ≡ LineFault.Memory) }
{
    if !acts.has_ended {
        return Err(LineFault::Memory);
    }
    act_trees(alloc, &acts.done)
}

/// The transition that was read. The tokens of a line end with its end, so it has ended.
fn finished<'a>(
    alloc: Global,
    line: u32,
    reader: &TransitionReader<'a>,
) -> Result<TransTree, LineFault>
    ensures line { IfOk result (λ t. t.line ≡ line) }
    ensures ok { IfOk result (Says Ends ActsEnd (state_of reader.now)) }
    ensures err { IfErr result (λ e. e ≡ LineFault.Memory) }
{
    match reader {
        TransitionReader::Ended(names) => {
            tree(alloc, line, *names, Vec::new(alloc), Vec::new(alloc))
        }
        TransitionReader::Guard(names, guard) => {
            let guard = rows::finished(alloc, guard)?;
            tree(alloc, line, *names, guard, Vec::new(alloc))
        }
        TransitionReader::Acts(names, guard, acts) => {
            let guard = guard_rows(alloc, guard)?;
            let acts = ended_acts(alloc, acts)?;
            tree(alloc, line, *names, guard, acts)
        }
        _ => Err(LineFault::Memory),
    }
}

/// The transition that the tokens of a line spell, behind its first word, with this number of its line; `<` and `>` stand in
/// its guard only if strict.
pub fn line_transition<'a>(
    alloc: Global,
    strict: bool,
    line: u32,
    tokens: &[Token<'a>],
) -> Result<TransTree, LineFault>
    requires { AreLiterals (marks (map (placed_of line) tokens.now)) }
    ensures line { IfOk result (λ t. t.line ≡ line) }
    ensures ok { IfOk result (λ t. IsLineWithin (IsTransition strict) transition_limits (marks (map (placed_of line) tokens.now)) t) }
    ensures fault { IfErr result (IsLineFault (IsTransition strict) transition_limits (map (placed_of line) tokens.now)) }
{
    let reader = read_transition(alloc, strict, line, tokens)?;
    finished(alloc, line, &reader)
}

/// The transition that the bytes of a line spell.
pub fn transition_of_line(
    alloc: Global,
    strict: bool,
    line: u32,
    text: &[u8],
) -> Result<TransTree, LineFault>
    requires { length text.now + 1 < 2 ^ 32 }
    ensures line { IfOk result (λ t. t.line ≡ line) }
    ensures ok { IfOk result (λ t. IsLineWithin (IsTransition strict) transition_limits (marks (tokens.line_tokens line text.now)) t) }
    ensures fault { IfErr result (IsLineFault (IsTransition strict) transition_limits (tokens.line_tokens line text.now)) }
{
    let found = line_tokens(alloc, line, text)?;
    line_transition(alloc, strict, line, &found)
}
