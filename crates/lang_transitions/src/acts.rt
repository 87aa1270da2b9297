//! Reads acts, a token at a time.

ghost use Rattle.std.specs.Prelude.{◌≡◌, ◌<◌, if◌then◌else◌, map, Some, None, IfSome, IfOk, IfErr};
ghost use Rattle.std.specs.List.{list_all};
ghost use Rattle.lang_specs.specs.declared.Which.TheVariants as which;
ghost use Rattle.lang_specs.specs.Marks.{mark};
ghost use Rattle.lang_tokens.specs.Places.{placed_of};
ghost use Rattle.lang_tokens.specs.Machines.{AllValues, behind_item, next, start_of};
ghost use Rattle.lang_tokens.specs.Gives.{Advances};
ghost use Rattle.lang_transitions.specs.ActMachine as machine;
ghost use Rattle.lang_transitions.specs.ActMachine.{IsActValue};
ghost use Rattle.lang_transitions.specs.ActViews.{act_of, place_of, reading_of, terms_of, expr_of, KnowsFew, Takes};

use crate::expression::{ExprReader, Taken, in_expression, nothing_yet};
use lang_rows::expressions::{TermText, terms};
use lang_specs::Kind;
use lang_tokens::{LineFault, Token, is, name_of};
use lang_trees::{ActParts, ActTree, Expr};
use std::alloc::{AllocError, Global};

/// An act as it is written: of a variable, with the expressions that it may have.
#[derive(Drop)]
pub enum ActText<'a> {
    /// `NAME = EXPR`
    Set(&'a [u8], Vec<TermText<'a>>),
    /// `NAME in [ EXPR , EXPR ]`
    Within(&'a [u8], Vec<TermText<'a>>, Vec<TermText<'a>>),
    /// `free NAME`
    Free(&'a [u8]),
}

/// What an act wants next, and what stands before it in the act.
#[derive(Drop)]
pub enum ActPlace<'a> {
    /// Before the act.
    Act,
    /// Behind `free`.
    Free,
    /// Behind the variable, before `=` or `in`.
    Verb(&'a [u8]),
    /// Behind `=`, in the expression.
    Value(&'a [u8], ExprReader<'a>),
    /// Behind `in`, before `[`.
    Open(&'a [u8]),
    /// In the first of two expressions.
    Lo(&'a [u8], ExprReader<'a>),
    /// In the second of two expressions.
    Hi(&'a [u8], Vec<TermText<'a>>, ExprReader<'a>),
    /// Behind an act with which no token goes on.
    Behind(ActText<'a>),
}

/// What was read of acts.
#[derive(Drop)]
pub struct ActReader<'a> {
    /// The acts that are complete.
    pub done: Vec<ActText<'a>>,
    /// Whether each of their expressions has few terms, kept so that no act is counted again at a later token.
    pub(crate) few: bool,
    /// The place in the next act.
    pub(crate) place: ActPlace<'a>,
    /// Whether the line has ended, which completes the last act.
    pub has_ended: bool,
}

/// A reader that has read nothing of an act.
pub fn fresh_reader<'a>(alloc: Global) -> ActReader<'a>
    ensures start { reading_of result ≡ start_of machine.acts }
    ensures few { KnowsFew result }
{
    ActReader {
        done: Vec::new(alloc),
        few: true,
        place: ActPlace::Act,
        has_ended: false,
    }
}

/// The place, where the token is what is wanted.
fn when<'a>(wanted: bool, place: ActPlace<'a>) -> Taken<ActPlace<'a>, ActText<'a>>
    ensures { result ≡ (if wanted then Taken.Inside place.entry else Taken.Refused) }
{
    if wanted {
        Taken::Inside(place)
    } else {
        Taken::Refused
    }
}

/// What a token does where an act begins.
#[tactic(auto, unfolding(crate::specs::ActMachine::in_act))]
fn at_act<'a>(token: Token<'a>) -> Taken<ActPlace<'a>, ActText<'a>>
    ensures { Takes place_of act_of (machine.in_act machine.at_act (mark (placed_of 0 token.entry))) None result }
{
    if is(token.kind, Kind::Name) {
        Taken::Inside(ActPlace::Verb(token.text))
    } else {
        when(is(token.kind, Kind::Free), ActPlace::Free)
    }
}

/// What a token does behind the variable that an act begins with.
#[tactic(auto, unfolding(crate::specs::ActMachine::in_act))]
fn at_verb<'a>(alloc: Global, var: &'a [u8], token: Token<'a>) -> Taken<ActPlace<'a>, ActText<'a>>
    ensures { Takes place_of act_of (machine.in_act (machine.at_verb var.now) (mark (placed_of 0 token.entry))) None result }
{
    if is(token.kind, Kind::Equal) {
        Taken::Inside(ActPlace::Value(var, nothing_yet(alloc)))
    } else {
        when(is(token.kind, Kind::In), ActPlace::Open(var))
    }
}

/// What a token does in the value that a variable takes.
#[tactic(auto, unfolding(crate::specs::ActMachine::in_act))]
fn at_value<'a>(
    var: &'a [u8],
    reader: ExprReader<'a>,
    token: Token<'a>,
) -> Result<Taken<ActPlace<'a>, ActText<'a>>, AllocError>
    ensures { IfOk result (Takes place_of act_of (machine.in_act (machine.at_value var.now (expr_of reader.entry)) (mark (placed_of 0 token.entry))) (machine.made (machine.at_value var.now (expr_of reader.entry)))) }
{
    Ok(match in_expression(reader, token)? {
        Taken::Inside(reader) => Taken::Inside(ActPlace::Value(var, reader)),
        Taken::Behind(value) => Taken::Behind(ActText::Set(var, value)),
        Taken::Refused => Taken::Refused,
    })
}

/// What a token does in the first of two expressions: a comma stands behind it.
#[tactic(auto, unfolding(crate::specs::ActMachine::in_act))]
fn at_lo<'a>(
    alloc: Global,
    var: &'a [u8],
    reader: ExprReader<'a>,
    token: Token<'a>,
) -> Result<Taken<ActPlace<'a>, ActText<'a>>, AllocError>
    ensures { IfOk result (Takes place_of act_of (machine.in_act (machine.at_lo var.now (expr_of reader.entry)) (mark (placed_of 0 token.entry))) None) }
{
    Ok(match in_expression(reader, token)? {
        Taken::Inside(reader) => Taken::Inside(ActPlace::Lo(var, reader)),
        Taken::Behind(lo) => {
            let comma = is(token.kind, Kind::Comma);
            when(comma, ActPlace::Hi(var, lo, nothing_yet(alloc)))
        }
        Taken::Refused => Taken::Refused,
    })
}

/// What a token does in the second of two expressions: the sign that closes the act stands behind it.
#[tactic(auto, unfolding(crate::specs::ActMachine::in_act))]
fn at_hi<'a>(
    var: &'a [u8],
    lo: Vec<TermText<'a>>,
    reader: ExprReader<'a>,
    token: Token<'a>,
) -> Result<Taken<ActPlace<'a>, ActText<'a>>, AllocError>
    ensures { IfOk result (Takes place_of act_of (machine.in_act (machine.at_hi var.now (terms_of lo.entry.items) (expr_of reader.entry)) (mark (placed_of 0 token.entry))) None) }
{
    Ok(match in_expression(reader, token)? {
        Taken::Inside(reader) => Taken::Inside(ActPlace::Hi(var, lo, reader)),
        Taken::Behind(hi) => {
            let closes = is(token.kind, Kind::Close);
            when(closes, ActPlace::Behind(ActText::Within(var, lo, hi)))
        }
        Taken::Refused => Taken::Refused,
    })
}

/// What a token does in an act.
#[tactic(auto, unfolding(crate::specs::ActMachine::in_act))]
fn in_act<'a>(
    alloc: Global,
    place: ActPlace<'a>,
    token: Token<'a>,
) -> Result<Taken<ActPlace<'a>, ActText<'a>>, AllocError>
    ensures { IfOk result (Takes place_of act_of (machine.in_act (place_of place.entry) (mark (placed_of 0 token.entry))) (machine.made (place_of place.entry))) }
{
    match place {
        ActPlace::Act => Ok(at_act(token)),
        ActPlace::Free => Ok(when(
            is(token.kind, Kind::Name),
            ActPlace::Behind(ActText::Free(token.text)),
        )),
        ActPlace::Verb(var) => Ok(at_verb(alloc, var, token)),
        ActPlace::Value(var, reader) => at_value(var, reader, token),
        ActPlace::Open(var) => Ok(when(
            is(token.kind, Kind::Open),
            ActPlace::Lo(var, nothing_yet(alloc)),
        )),
        ActPlace::Lo(var, reader) => at_lo(alloc, var, reader, token),
        ActPlace::Hi(var, lo, reader) => at_hi(var, lo, reader, token),
        ActPlace::Behind(act) => Ok(Taken::Behind(act)),
    }
}

/// Whether each expression of the act has few terms.
fn is_short<'a>(act: &ActText<'a>) -> bool
    ensures { result ≡ machine.few_act (act_of act.now) }
{
    match act {
        ActText::Set(_, value) => value.len() <= 14,
        ActText::Within(_, lo, hi) => lo.len() <= 14 && hi.len() <= 14,
        ActText::Free(_) => true,
    }
}

/// Whether what was read of an act leaves room for the term that is read or is to come.
fn has_room<'a>(place: &ActPlace<'a>) -> bool
    ensures { result ≡ machine.few_there (place_of place.now) }
{
    match place {
        ActPlace::Value(_, reader) | ActPlace::Lo(_, reader) => reader.terms.len() < 14,
        ActPlace::Hi(_, lo, reader) => lo.len() <= 14 && reader.terms.len() < 14,
        ActPlace::Behind(act) => is_short(act),
        ActPlace::Act | ActPlace::Free | ActPlace::Verb(_) | ActPlace::Open(_) => true,
    }
}

/// Whether each expression that was read has few terms, with the term that is read or is to come.
pub fn has_few_terms<'a>(reader: &ActReader<'a>) -> bool
    requires { KnowsFew reader.now }
    ensures { result ≡ machine.fits_acts which.Terms (reading_of reader.now) }
{
    reader.few && (reader.has_ended || has_room(&reader.place))
}

/// The reader behind a token that stands behind a complete act.
fn behind_act<'a>(
    done: Vec<ActText<'a>>,
    few: bool,
    act: ActText<'a>,
    token: Token<'a>,
) -> Result<ActReader<'a>, LineFault>
    requires { few ≡ list_all machine.few_act (map act_of done.items) }
    ensures next { Advances reading_of (placed_of 0 token.entry) result (behind_item machine.acts (map act_of done.entry.items) (mark (placed_of 0 token.entry)) (Some (act_of act.entry))) }
    ensures few { IfOk result KnowsFew }
{
    let has_ended = is(token.kind, Kind::EndLine);
    if !has_ended && !is(token.kind, Kind::Comma) {
        return Err(LineFault::Syntax(token.column));
    }
    let few = few && is_short(&act);
    let mut done = done;
    done.push(act)?;
    Ok(ActReader {
        done,
        few,
        place: ActPlace::Act,
        has_ended,
    })
}

/// The reader behind a token, whatever limit it passes. `Err` has the token's column where nothing allows it, or says that
/// memory ran out.
pub fn advance<'a>(
    alloc: Global,
    reader: ActReader<'a>,
    token: Token<'a>,
) -> Result<ActReader<'a>, LineFault>
    requires { KnowsFew reader }
    ensures next { Advances reading_of (placed_of 0 token.entry) result (next machine.acts (reading_of reader.entry) (mark (placed_of 0 token.entry))) }
    ensures few { IfOk result KnowsFew }
{
    if reader.has_ended {
        return Err(LineFault::Syntax(token.column));
    }
    match in_act(alloc, reader.place, token)? {
        Taken::Inside(place) => Ok(ActReader {
            done: reader.done,
            few: reader.few,
            place,
            has_ended: false,
        }),
        Taken::Behind(act) => behind_act(reader.done, reader.few, act, token),
        Taken::Refused => Err(LineFault::Syntax(token.column)),
    }
}

/// What the act says.
fn tree<'a>(alloc: Global, text: &ActText<'a>) -> Option<ActTree>
    ensures { IfSome result (IsActValue (act_of text.now)) }
{
    let parts = match text {
        ActText::Set(var, value) => ActParts::Set {
            var: name_of(alloc, var)?,
            value: Expr::new(terms(alloc, value).ok()?),
        },
        ActText::Within(var, lo, hi) => ActParts::Within {
            var: name_of(alloc, var)?,
            lo: Expr::new(terms(alloc, lo).ok()?),
            hi: Expr::new(terms(alloc, hi).ok()?),
        },
        ActText::Free(var) => ActParts::Free {
            var: name_of(alloc, var)?,
        },
    };
    Some(ActTree::new(parts))
}

/// What each act says. `Err` is want of memory: a name of a token is one, and a literal that was read has a value, since one
/// of too many digits passes a limit before.
pub fn act_trees<'a>(alloc: Global, texts: &[ActText<'a>]) -> Result<Vec<ActTree>, LineFault>
    ensures ok { IfOk result (λ v. AllValues IsActValue (map act_of texts.now) v.items) }
    ensures err { IfErr result (λ e. e ≡ LineFault.Memory) }
{
    let mut trees = Vec::new(alloc);
    for text in texts {
        match tree(alloc, text) {
            Some(tree) => trees.push(tree)?,
            None => return Err(LineFault::Memory),
        }
    }
    Ok(trees)
}
