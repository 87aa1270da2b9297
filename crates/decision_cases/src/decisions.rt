//! Cases of what is decided of systems.

use crate::points::picked;
use case_texts::texts::{parts, point, row, system};
use case_texts::{Missing, writing};
use fm_eliminate::System;
use lin_row::Row;
use poly_decide::{Bound, entails, includes, is_empty, prune, sup};
use std::alloc::Global;

fn bound(alloc: Global, told: &Bound) -> Result<String, Missing> {
    match told {
        Bound::Empty => writing::word(alloc, "empty"),
        Bound::Unbounded => writing::word(alloc, "unbounded"),
        Bound::Max(end) => {
            let end = writing::fraction(alloc, end)?;
            Ok(format!(in alloc; "max {end}")?)
        }
        Bound::Below(end) => {
            let end = writing::fraction(alloc, end)?;
            Ok(format!(in alloc; "below {end}")?)
        }
    }
}

fn bounded(alloc: Global, s: &System, of: &Row) -> Result<String, Missing> {
    if of.coef().len() == s.width() && s.width() <= 13 {
        bound(alloc, &sup(alloc, s, of)?)
    } else {
        Err(Missing::Form)
    }
}

fn entailed(alloc: Global, s: &System, of: &Row) -> Result<String, Missing> {
    if of.coef().len() == s.width() && s.width() <= 13 {
        writing::yes_or_no(alloc, entails(alloc, s, of)?)
    } else {
        Err(Missing::Form)
    }
}

fn included(alloc: Global, big: &System, small: &System) -> Result<String, Missing> {
    if big.width() == small.width() && small.width() <= 13 {
        writing::yes_or_no(alloc, includes(alloc, big, small)?)
    } else {
        Err(Missing::Form)
    }
}

/// The answer to a case of two arguments, the second a system: `sup ROW | SYSTEM`, `entails ROW | SYSTEM`,
/// `includes BIG | SMALL`, `pick FIXED | SYSTEM`.
fn pair(alloc: Global, word: &str, first: &str, s: &System) -> Result<String, Missing> {
    match word {
        "sup" => bounded(alloc, s, &row(alloc, first)?),
        "entails" => entailed(alloc, s, &row(alloc, first)?),
        "includes" => included(alloc, &system(alloc, first)?, s),
        "pick" => picked(alloc, &point(alloc, first)?, s),
        _ => Err(Missing::Form),
    }
}

/// The answer to a case of decisions: `empty SYSTEM`, `prune SYSTEM`, and those above.
pub(crate) fn answer(alloc: Global, word: &str, args: &str) -> Result<String, Missing> {
    match word {
        "empty" => writing::yes_or_no(alloc, is_empty(alloc, &system(alloc, args)?)?),
        "prune" => writing::system(alloc, &prune(alloc, &system(alloc, args)?)?),
        _ => {
            let (first, given) = parts(args, '|')?;
            pair(alloc, word, first, &system(alloc, given)?)
        }
    }
}
