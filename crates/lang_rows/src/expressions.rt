//! Reads expressions, a token at a time.

ghost use Rattle.std.specs.Prelude.{◌≡◌, map, Some, None, IfSome, IfOk, IfErr};
ghost use Rattle.std.specs.Option.{option_map};
ghost use Rattle.lang_specs.specs.Marks.{mark};
ghost use Rattle.lang_specs.specs.Expressions.{IsValue, one};
ghost use Rattle.lang_tokens.specs.Places.{placed_of};
ghost use Rattle.lang_tokens.specs.Machines.{AllValues};
ghost use Rattle.lang_rows.specs.Texts.{IsTermValue};
ghost use Rattle.lang_rows.specs.ExprMachine as machine;
ghost use Rattle.lang_rows.specs.Views.{term_of, place_of};

use frac128::Frac;
use lang_specs::Kind;
use lang_tokens::{LineFault, Token, is, literal_value, name_of};
use lang_trees::Term;
use std::alloc::Global;

/// A literal, a literal times a variable, or a variable.
#[derive(Clone, Copy, Debug)]
pub enum FactorText<'a> {
    /// `LITERAL`
    Literal(&'a [u8]),
    /// `LITERAL * NAME`
    Scaled(&'a [u8], &'a [u8]),
    /// `NAME`
    Plain(&'a [u8]),
}

/// A term as it is written, taken away where `neg`.
#[derive(Clone, Copy, Debug)]
pub struct TermText<'a> {
    /// Whether it is taken away.
    pub neg: bool,
    /// The term without its sign.
    pub factor: FactorText<'a>,
}

/// What an expression wants next, and what stands before it in the term.
#[derive(Clone, Copy, Debug)]
pub enum TermPlace<'a> {
    /// Before a term, which is taken away where `true`.
    Term(bool),
    /// Behind a literal, which is the term unless `*` stands next.
    Number(bool, &'a [u8]),
    /// Behind the `*` of a literal.
    Times(bool, &'a [u8]),
    /// Behind a term that ends with a variable.
    Named(TermText<'a>),
}

/// The place behind a token where a term is wanted.
#[tactic(auto, unfolding(crate::specs::ExprMachine::in_term))]
fn at_term<'a>(first: bool, neg: bool, token: Token<'a>) -> Option<TermPlace<'a>>
    ensures { option_map place_of result ≡ machine.in_term first (machine.at_term neg) (mark (placed_of 0 token.entry)) }
{
    if is(token.kind, Kind::Number) {
        Some(TermPlace::Number(neg, token.text))
    } else if is(token.kind, Kind::Name) {
        let factor = FactorText::Plain(token.text);
        Some(TermPlace::Named(TermText { neg, factor }))
    } else if is(token.kind, Kind::Minus) && first && !neg {
        Some(TermPlace::Term(true))
    } else {
        None
    }
}

/// The place behind a token in a term; `first` says that no term stands before it.
#[tactic(auto, unfolding(crate::specs::ExprMachine::in_term))]
pub fn in_term<'a>(first: bool, place: TermPlace<'a>, token: Token<'a>) -> Option<TermPlace<'a>>
    ensures { option_map place_of result ≡ machine.in_term first (place_of place.entry) (mark (placed_of 0 token.entry)) }
{
    match place {
        TermPlace::Term(neg) => at_term(first, neg, token),
        TermPlace::Number(neg, l) if is(token.kind, Kind::Times) => {
            Some(TermPlace::Times(neg, l))
        }
        TermPlace::Times(neg, l) if is(token.kind, Kind::Name) => {
            let factor = FactorText::Scaled(l, token.text);
            Some(TermPlace::Named(TermText { neg, factor }))
        }
        _ => None,
    }
}

/// The term that is complete here.
pub fn made_term<'a>(place: TermPlace<'a>) -> Option<TermText<'a>>
    ensures { option_map term_of result ≡ machine.made_term (place_of place.entry) }
{
    match place {
        TermPlace::Number(neg, l) => Some(TermText {
            neg,
            factor: FactorText::Literal(l),
        }),
        TermPlace::Named(t) => Some(t),
        TermPlace::Term(_) | TermPlace::Times(_, _) => None,
    }
}

/// Whether the token joins a next term, and takes it away.
pub fn joins<'a>(token: Token<'a>) -> Option<bool>
    ensures { result ≡ machine.joins (mark (placed_of 0 token.entry)) }
{
    if is(token.kind, Kind::Plus) {
        Some(false)
    } else if is(token.kind, Kind::Minus) {
        Some(true)
    } else {
        None
    }
}

/// Whether no term stands here.
pub fn is_empty<'a>(terms: &[TermText<'a>]) -> bool
    ensures { result ≡ machine.is_empty (map term_of terms.now) }
{
    match terms {
        [] => true,
        _ => false,
    }
}

/// The number that a literal writes.
fn value(text: &[u8]) -> Option<Frac>
    ensures { IfSome result (λ v. IsValue text.now v) }
{
    match literal_value(text) {
        Ok(size) => Some(size),
        Err(_) => None,
    }
}

/// The number of a name alone.
fn one() -> Frac
    ensures { result ≡ one }
{
    Frac::make(1, 1)
}

/// What the term says.
fn tree<'a>(alloc: Global, text: TermText<'a>) -> Option<Term>
    ensures { IfSome result (IsTermValue (term_of text.entry)) }
{
    match text.factor {
        FactorText::Literal(l) => Some(Term::new(text.neg, value(l)?, None)),
        FactorText::Scaled(l, v) => {
            let size = value(l)?;
            let name = name_of(alloc, v)?;
            Some(Term::new(text.neg, size, Some(name)))
        }
        FactorText::Plain(v) => {
            let name = name_of(alloc, v)?;
            Some(Term::new(text.neg, one(), Some(name)))
        }
    }
}

/// What each term says.
pub fn terms<'a>(alloc: Global, texts: &[TermText<'a>]) -> Result<Vec<Term>, LineFault>
    ensures ok { IfOk result (λ v. AllValues IsTermValue (map term_of texts.now) v.items) }
    ensures err { IfErr result (λ e. e ≡ LineFault.Memory) }
{
    let mut trees = Vec::new(alloc);
    for text in texts {
        match tree(alloc, *text) {
            Some(tree) => trees.push(tree)?,
            None => return Err(LineFault::Memory),
        }
    }
    Ok(trees)
}
