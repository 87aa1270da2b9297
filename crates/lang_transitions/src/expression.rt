//! Reads one expression, a token at a time.

ghost use Rattle.std.specs.Prelude.{◌≡◌, IfOk, Some, None};
ghost use Rattle.lang_specs.specs.Marks.{mark};
ghost use Rattle.lang_tokens.specs.Places.{placed_of};
ghost use Rattle.lang_rows.specs.ExprMachine as machine;
ghost use Rattle.lang_rows.specs.Views as rows;
ghost use Rattle.lang_transitions.specs.ActViews.{terms_of, expr_of, Takes};

use lang_rows::expressions::{TermPlace, TermText, in_term, is_empty, joins, made_term};
use lang_tokens::Token;
use std::alloc::{AllocError, Global};

/// Terms that are complete, and the place in the next one.
#[derive(Drop)]
pub struct ExprReader<'a> {
    pub(crate) terms: Vec<TermText<'a>>,
    pub(crate) place: TermPlace<'a>,
}

/// What a token does: it goes on with what is read, it stands behind it where it is complete, or nothing allows it.
#[derive(Drop)]
pub(crate) enum Taken<P, X> {
    Inside(P),
    Behind(X),
    Refused,
}

/// A reader that has read nothing of an expression.
pub(crate) fn nothing_yet<'a>(alloc: Global) -> ExprReader<'a>
    ensures { expr_of result ≡ machine.expr_start }
{
    ExprReader {
        terms: Vec::new(alloc),
        place: TermPlace::Term(false),
    }
}

/// What a token does behind a complete term.
fn behind_term<'a>(
    terms: Vec<TermText<'a>>,
    place: TermPlace<'a>,
    term: TermText<'a>,
    token: Token<'a>,
) -> Result<Taken<ExprReader<'a>, Vec<TermText<'a>>>, AllocError>
    requires behind { machine.in_term (machine.is_empty (terms_of terms.items)) (rows.place_of place) (mark (placed_of 0 token)) ≡ None }
    requires made { machine.made_term (rows.place_of place) ≡ Some (rows.term_of term) }
    ensures { IfOk result (Takes expr_of (λ x. terms_of x.items) (machine.in_expr (record { terms = terms_of terms.entry.items; place = rows.place_of place.entry }) (mark (placed_of 0 token.entry))) (machine.made_expr (record { terms = terms_of terms.entry.items; place = rows.place_of place.entry }))) }
{
    let mut terms = terms;
    terms.push(term)?;
    Ok(match joins(token) {
        Some(neg) => Taken::Inside(ExprReader {
            terms,
            place: TermPlace::Term(neg),
        }),
        None => Taken::Behind(terms),
    })
}

/// What a token does in an expression.
pub(crate) fn in_expression<'a>(
    reader: ExprReader<'a>,
    token: Token<'a>,
) -> Result<Taken<ExprReader<'a>, Vec<TermText<'a>>>, AllocError>
    ensures { IfOk result (Takes expr_of (λ x. terms_of x.items) (machine.in_expr (expr_of reader.entry) (mark (placed_of 0 token.entry))) (machine.made_expr (expr_of reader.entry))) }
{
    let first = is_empty(&reader.terms);
    if let Some(place) = in_term(first, reader.place, token) {
        return Ok(Taken::Inside(ExprReader {
            terms: reader.terms,
            place,
        }));
    }
    match made_term(reader.place) {
        Some(term) => behind_term(reader.terms, reader.place, term, token),
        None => Ok(Taken::Refused),
    }
}
