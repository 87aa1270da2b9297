//! Reads constraints, a token at a time.

ghost use Rattle.std.specs.Prelude.{◌≡◌, false, ◌+◌, ◌<◌, ◌≤◌, ◌^◌, ◌++◌, [], ◌∷◌, if◌then◌else◌, nat_le, length, map, Some, None, IfSome, IfOk, IfErr};
ghost use Rattle.std.specs.List.{list_all};
ghost use Rattle.lang_specs.specs.declared.Which.TheVariants as which;
ghost use Rattle.lang_specs.specs.Marks.{mark};
ghost use Rattle.lang_specs.specs.Tokens as tokens;
ghost use Rattle.lang_specs.specs.Expressions.{AreRows};
ghost use Rattle.lang_tokens.specs.LineFaults.{marks, AreLiterals, IsLineWithin, IsLineFault};
ghost use Rattle.lang_tokens.specs.Places.{placed_of};
ghost use Rattle.lang_tokens.specs.Machines as machines;
ghost use Rattle.lang_tokens.specs.Machines.{AllValues, next, start_of, step, run};
ghost use Rattle.lang_specs.specs.Limits.{rows_in};
ghost use Rattle.lang_tokens.specs.Gives.{Advances, GivesAt, Gives};
ghost use Rattle.lang_rows.specs.Texts.{IsRowValue};
ghost use Rattle.lang_rows.specs.ExprMachine as expressions;
ghost use Rattle.lang_rows.specs.RowMachine as machine;
ghost use Rattle.lang_rows.specs.RowMachine.{row_limits, Ends};
ghost use Rattle.lang_rows.specs.Views.{term_of, place_of, row_of, reading_of, state_of};

use crate::expressions::{TermPlace, TermText, in_term, is_empty, joins, made_term, terms};
use lang_specs::{Kind, Sign, Which};
use lang_tokens::{LineFault, Token, fits_on, is, line_tokens, passed_alone, unless};
use lang_trees::{Expr, RowTree};
use std::alloc::{AllocError, Global};

/// A constraint as it is written.
#[derive(Drop)]
pub struct RowText<'a> {
    pub(crate) left: Vec<TermText<'a>>,
    pub(crate) sign: Sign,
    pub(crate) right: Vec<TermText<'a>>,
}

/// Constraints that are complete; of the next one the left side and the sign, once they are read; the terms before, the
/// place in the next term, and whether the line has ended.
#[derive(Drop)]
pub struct RowReader<'a> {
    pub(crate) done: Vec<RowText<'a>>,
    pub(crate) left: Vec<TermText<'a>>,
    pub(crate) sign: Option<Sign>,
    pub(crate) terms: Vec<TermText<'a>>,
    pub(crate) place: TermPlace<'a>,
    pub(crate) has_ended: bool,
}

/// The reader of a line: before its first token, behind `true`, behind the end after it, or in constraints.
#[derive(Drop)]
pub enum RowsReader<'a> {
    First,
    True,
    Ended,
    Rows(RowReader<'a>),
}

/// Whether some token limits are kept: rows of the list, and terms of each expression.
#[derive(Clone, Copy, Debug)]
pub struct Room {
    pub rows: bool,
    pub terms: bool,
}

/// How a token compares; `<` and `>` do so only if strict.
fn compares<'a>(strict: bool, token: Token<'a>) -> Option<Sign>
    ensures { result ≡ machine.compares strict (mark (placed_of 0 token.entry)) }
{
    if is(token.kind, Kind::AtMost) {
        Some(Sign::AtMost)
    } else if is(token.kind, Kind::AtLeast) {
        Some(Sign::AtLeast)
    } else if is(token.kind, Kind::Equal) {
        Some(Sign::Equal)
    } else if is(token.kind, Kind::Less) && strict {
        Some(Sign::Less)
    } else if is(token.kind, Kind::Greater) && strict {
        Some(Sign::Greater)
    } else {
        None
    }
}

/// A reader that has read nothing of a constraint.
fn fresh<'a>(alloc: Global, strict: bool) -> RowReader<'a>
    ensures { reading_of result ≡ start_of (machine.rows strict) }
{
    RowReader {
        done: Vec::new(alloc),
        left: Vec::new(alloc),
        sign: None,
        terms: Vec::new(alloc),
        place: TermPlace::Term(false),
        has_ended: false,
    }
}

/// These terms with one more.
fn with_term<'a>(
    terms: Vec<TermText<'a>>,
    term: TermText<'a>,
) -> Result<Vec<TermText<'a>>, AllocError>
    ensures { IfOk result (λ v. map term_of v.items ≡ map term_of terms.entry.items ++ term_of term.entry ∷ []) }
{
    let mut terms = terms;
    terms.push(term)?;
    Ok(terms)
}

/// The reader behind a token that joins a next term.
#[tactic(auto, using(crate::proofs::RowSteps::joined_next))]
fn joined<'a>(
    strict: bool,
    reader: RowReader<'a>,
    term: TermText<'a>,
    neg: bool,
    token: Token<'a>,
) -> Result<RowReader<'a>, LineFault>
    requires goes_on { reader.has_ended ≡ false }
    requires behind { expressions.in_term (expressions.is_empty (map term_of reader.terms.items)) (place_of reader.place) (mark (placed_of 0 token)) ≡ None }
    requires made { expressions.made_term (place_of reader.place) ≡ Some (term_of term) }
    requires joins { expressions.joins (mark (placed_of 0 token)) ≡ Some neg }
    ensures { Advances reading_of (placed_of 0 token.entry) result (next (machine.rows strict) (reading_of reader.entry) (mark (placed_of 0 token.entry))) }
{
    let terms = with_term(reader.terms, term)?;
    Ok(RowReader {
        done: reader.done,
        left: reader.left,
        sign: reader.sign,
        terms,
        place: TermPlace::Term(neg),
        has_ended: false,
    })
}

/// The reader behind a token that stands behind a complete left side.
#[tactic(auto, using(crate::proofs::RowSteps::left_next, crate::proofs::RowSteps::left_refused))]
fn behind_left<'a>(
    alloc: Global,
    strict: bool,
    reader: RowReader<'a>,
    term: TermText<'a>,
    token: Token<'a>,
) -> Result<RowReader<'a>, LineFault>
    requires goes_on { reader.has_ended ≡ false }
    requires side { reader.sign ≡ None }
    requires behind { expressions.in_term (expressions.is_empty (map term_of reader.terms.items)) (place_of reader.place) (mark (placed_of 0 token)) ≡ None }
    requires made { expressions.made_term (place_of reader.place) ≡ Some (term_of term) }
    requires joins { expressions.joins (mark (placed_of 0 token)) ≡ None }
    ensures { Advances reading_of (placed_of 0 token.entry) result (next (machine.rows strict) (reading_of reader.entry) (mark (placed_of 0 token.entry))) }
{
    match compares(strict, token) {
        None => Err(LineFault::Syntax(token.column)),
        Some(sign) => {
            let left = with_term(reader.terms, term)?;
            Ok(RowReader {
                done: reader.done,
                left,
                sign: Some(sign),
                terms: Vec::new(alloc),
                place: TermPlace::Term(false),
                has_ended: false,
            })
        }
    }
}

/// The reader behind a token that stands behind a complete constraint.
#[tactic(auto, unfolding(crate::specs::RowMachine::in_row))]
fn behind_right<'a>(
    alloc: Global,
    strict: bool,
    reader: RowReader<'a>,
    sign: Sign,
    term: TermText<'a>,
    token: Token<'a>,
) -> Result<RowReader<'a>, LineFault>
    requires goes_on { reader.has_ended ≡ false }
    requires side { reader.sign ≡ Some sign }
    requires behind { expressions.in_term (expressions.is_empty (map term_of reader.terms.items)) (place_of reader.place) (mark (placed_of 0 token)) ≡ None }
    requires made { expressions.made_term (place_of reader.place) ≡ Some (term_of term) }
    requires joins { expressions.joins (mark (placed_of 0 token)) ≡ None }
    ensures { Advances reading_of (placed_of 0 token.entry) result (next (machine.rows strict) (reading_of reader.entry) (mark (placed_of 0 token.entry))) }
{
    let has_ended = is(token.kind, Kind::EndLine);
    if !has_ended && !is(token.kind, Kind::Comma) {
        return Err(LineFault::Syntax(token.column));
    }
    let mut right = reader.terms;
    right.push(term)?;
    let mut done = reader.done;
    done.push(RowText {
        left: reader.left,
        sign,
        right,
    })?;
    Ok(RowReader {
        done,
        left: Vec::new(alloc),
        sign: None,
        terms: Vec::new(alloc),
        place: TermPlace::Term(false),
        has_ended,
    })
}

/// The reader behind a token in a term.
#[tactic(auto, using(crate::proofs::RowSteps::inside_next))]
fn inside<'a>(
    strict: bool,
    reader: RowReader<'a>,
    place: TermPlace<'a>,
    token: Token<'a>,
) -> RowReader<'a>
    requires goes_on { reader.has_ended ≡ false }
    requires inside { expressions.in_term (expressions.is_empty (map term_of reader.terms.items)) (place_of reader.place) (mark (placed_of 0 token)) ≡ Some (place_of place) }
    ensures { next (machine.rows strict) (reading_of reader.entry) (mark (placed_of 0 token.entry)) ≡ Some (reading_of result) }
{
    RowReader {
        done: reader.done,
        left: reader.left,
        sign: reader.sign,
        terms: reader.terms,
        place,
        has_ended: false,
    }
}

/// The reader behind a token in constraints, whatever limit it passes.
#[tactic(auto, using(crate::proofs::RowSteps::nothing_next))]
fn in_rows<'a>(
    alloc: Global,
    strict: bool,
    reader: RowReader<'a>,
    token: Token<'a>,
) -> Result<RowReader<'a>, LineFault>
    ensures { Advances reading_of (placed_of 0 token.entry) result (next (machine.rows strict) (reading_of reader.entry) (mark (placed_of 0 token.entry))) }
{
    if reader.has_ended {
        return Err(LineFault::Syntax(token.column));
    }
    let first = is_empty(&reader.terms);
    match in_term(first, reader.place, token) {
        Some(place) => Ok(inside(strict, reader, place, token)),
        None => match made_term(reader.place) {
            None => Err(LineFault::Syntax(token.column)),
            Some(term) => match joins(token) {
                Some(neg) => joined(strict, reader, term, neg, token),
                None => match reader.sign {
                    None => behind_left(alloc, strict, reader, term, token),
                    Some(sign) => behind_right(alloc, strict, reader, sign, term, token),
                },
            },
        },
    }
}

/// The reader behind a token, whatever limit it passes.
#[tactic(auto, unfolding(crate::specs::RowMachine::next_row))]
pub fn advance<'a>(
    alloc: Global,
    strict: bool,
    reader: RowsReader<'a>,
    token: Token<'a>,
) -> Result<RowsReader<'a>, LineFault>
    ensures { Advances state_of (placed_of 0 token.entry) result (machine.next_row strict (state_of reader.entry) (mark (placed_of 0 token.entry))) }
{
    match reader {
        RowsReader::First => {
            if is(token.kind, Kind::True) {
                Ok(RowsReader::True)
            } else {
                let rows = in_rows(alloc, strict, fresh(alloc, strict), token)?;
                Ok(RowsReader::Rows(rows))
            }
        }
        RowsReader::True => {
            if is(token.kind, Kind::EndLine) {
                Ok(RowsReader::Ended)
            } else {
                Err(LineFault::Syntax(token.column))
            }
        }
        RowsReader::Ended => Err(LineFault::Syntax(token.column)),
        RowsReader::Rows(rows) => {
            let rows = in_rows(alloc, strict, rows, token)?;
            Ok(RowsReader::Rows(rows))
        }
    }
}

/// How many rows a constraint counts for.
fn counts(sign: Sign) -> usize
    ensures value { result ≡ rows_in sign }
    ensures few { result ≤ 2 }
{
    match sign {
        Sign::Equal => 2,
        _ => 1,
    }
}

/// Whether a list of these constraints has room for this many rows more.
fn has_room<'a>(rows: &[RowText<'a>], more: usize) -> bool
    requires { more ≤ 2 }
    ensures { result ≡ nat_le (machine.rows_of (map row_of rows.now) + more) 12 }
{
    let mut count = more;
    for row in rows {
        count += counts(row.sign);
        if count > 12 {
            return false;
        }
    }
    true
}

/// Whether each of these constraints has few terms on both sides.
fn have_few_terms<'a>(rows: &[RowText<'a>]) -> bool
    ensures { result ≡ list_all machine.few_both (map row_of rows.now) }
{
    for row in rows {
        if row.left.len() > 14 || row.right.len() > 14 {
            return false;
        }
    }
    true
}

/// What room there is for rows and for terms behind what was read of constraints.
fn room_in_rows<'a>(reader: &RowReader<'a>) -> Room
    ensures rows { result.rows ≡ machine.fits_rows which.Rows (reading_of reader.now) }
    ensures terms { result.terms ≡ machine.fits_rows which.Terms (reading_of reader.now) }
{
    let done = have_few_terms(&reader.done);
    if reader.has_ended {
        return Room {
            rows: has_room(&reader.done, 0),
            terms: done,
        };
    }
    let few = reader.terms.len() < 14;
    match reader.sign {
        None => Room {
            rows: has_room(&reader.done, 1),
            terms: done && few,
        },
        Some(sign) => Room {
            rows: has_room(&reader.done, counts(sign)),
            terms: done && reader.left.len() <= 14 && few,
        },
    }
}

/// What room there is for rows and for terms.
pub fn room_left<'a>(reader: &RowsReader<'a>) -> Room
    ensures rows { result.rows ≡ machine.fits_state which.Rows (state_of reader.now) }
    ensures terms { result.terms ≡ machine.fits_state which.Terms (state_of reader.now) }
{
    match reader {
        RowsReader::Rows(rows) => room_in_rows(rows),
        _ => Room {
            rows: true,
            terms: true,
        },
    }
}

/// The limit that a token passes, with this room before it and behind it.
pub fn passed<'a>(line: u32, before: Room, behind: Room, token: Token<'a>) -> Option<Which>
    ensures { result ≡ (if machines.fits_on before.rows behind.rows (mark (placed_of line token.entry)) then (if machines.fits_on before.terms behind.terms (mark (placed_of line token.entry)) then machines.passed_alone (mark (placed_of line token.entry)) else Some which.Terms) else Some which.Rows) }
{
    if !fits_on(before.rows, behind.rows, token.kind) {
        Some(Which::Rows)
    } else if !fits_on(before.terms, behind.terms, token.kind) {
        Some(Which::Terms)
    } else {
        passed_alone(line, token)
    }
}

/// The reader after a token.
fn step<'a>(
    alloc: Global,
    strict: bool,
    line: u32,
    reader: RowsReader<'a>,
    token: Token<'a>,
) -> Result<RowsReader<'a>, LineFault>
    ensures { GivesAt state_of (placed_of line token.entry) result (step (machine.row_line strict) (state_of reader.entry) (placed_of line token.entry)) }
{
    let before = room_left(&reader);
    let reader = advance(alloc, strict, reader, token)?;
    let behind = room_left(&reader);
    unless(passed(line, before, behind, token), reader)
}

/// Reads the constraints of a line, behind its first word.
fn read_rows<'a>(
    alloc: Global,
    strict: bool,
    line: u32,
    tokens: &[Token<'a>],
) -> Result<RowsReader<'a>, LineFault>
    ensures { Gives state_of result (run (machine.row_line strict) machine.at_first (map (placed_of line) tokens.now)) }
{
    let mut reader = RowsReader::First;
    for token in tokens {
        reader = step(alloc, strict, line, reader, *token)?;
    }
    Ok(reader)
}

/// What the constraint says.
fn tree<'a>(alloc: Global, text: &RowText<'a>) -> Option<RowTree>
    ensures { IfSome result (IsRowValue (row_of text.now)) }
{
    let left = terms(alloc, &text.left).ok()?;
    let right = terms(alloc, &text.right).ok()?;
    Some(RowTree::new(Expr::new(left), text.sign, Expr::new(right)))
}

/// What each constraint says.
fn trees<'a>(alloc: Global, texts: &[RowText<'a>]) -> Result<Vec<RowTree>, LineFault>
    ensures ok { IfOk result (λ v. AllValues IsRowValue (map row_of texts.now) v.items) }
    ensures err { IfErr result (λ e. e ≡ LineFault.Memory) }
{
    let mut trees = Vec::new(alloc);
    for text in texts {
        match tree(alloc, text) {
            Some(tree) => trees.push(tree)?,
            None => return Err(LineFault::Memory),
        }
    }
    Ok(trees)
}

/// What the constraints say that were read.
pub fn finished<'a>(alloc: Global, reader: &RowsReader<'a>) -> Result<Vec<RowTree>, LineFault>
    ensures ok { IfOk result (λ v. Ends (state_of reader.now) v.items) }
    ensures err { IfErr result (λ e. e ≡ LineFault.Memory) }
{
    match reader {
        RowsReader::Ended => Ok(Vec::new(alloc)),
        RowsReader::Rows(rows) if rows.has_ended => trees(alloc, &rows.done),
        _ => Err(LineFault::Memory),
    }
}

/// The constraints that the tokens of a line spell, behind its first word; `<` and `>` stand in them only if strict.
pub fn line_rows<'a>(
    alloc: Global,
    strict: bool,
    line: u32,
    tokens: &[Token<'a>],
) -> Result<Vec<RowTree>, LineFault>
    requires { AreLiterals (marks (map (placed_of line) tokens.now)) }
    ensures ok { IfOk result (λ v. IsLineWithin (AreRows strict) row_limits (marks (map (placed_of line) tokens.now)) v.items) }
    ensures fault { IfErr result (IsLineFault (AreRows strict) row_limits (map (placed_of line) tokens.now)) }
{
    let reader = read_rows(alloc, strict, line, tokens)?;
    finished(alloc, &reader)
}

/// The constraints that the bytes of a line spell.
pub fn rows_of_line(
    alloc: Global,
    strict: bool,
    line: u32,
    text: &[u8],
) -> Result<Vec<RowTree>, LineFault>
    requires { length text.now + 1 < 2 ^ 32 }
    ensures ok { IfOk result (λ v. IsLineWithin (AreRows strict) row_limits (marks (tokens.line_tokens line text.now)) v.items) }
    ensures fault { IfErr result (IsLineFault (AreRows strict) row_limits (tokens.line_tokens line text.now)) }
{
    let found = line_tokens(alloc, line, text)?;
    line_rows(alloc, strict, line, &found)
}
