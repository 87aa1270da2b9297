//! Cases of fractions.

use case_texts::texts::{fraction, made_fraction, number, parts};
use case_texts::{Missing, writing};
use frac128::{Frac, NumFault};
use std::alloc::Global;
use std::cmp::Ordering;
use std::hash::{FoldHasher, Hash, Hasher};

fn order(alloc: Global, order: Ordering) -> Result<String, Missing> {
    let word = match order {
        Ordering::Less => "less",
        Ordering::Equal => "equal",
        Ordering::Greater => "greater",
    };
    writing::word(alloc, word)
}

/// What reading a text gives.
fn read(alloc: Global, told: Result<Frac, NumFault>) -> Result<String, Missing> {
    match told {
        Ok(value) => writing::fraction(alloc, &value),
        Err(NumFault::Form) => writing::word(alloc, "no number"),
        Err(NumFault::Range) => writing::word(alloc, "out of range"),
    }
}

fn hash_of(value: &Frac) -> u64 {
    let mut hasher = FoldHasher::default();
    value.hash(&mut hasher);
    hasher.finish()
}

/// The answer to a case of two fractions.
fn pair(alloc: Global, word: &str, a: &Frac, b: &Frac) -> Result<String, Missing> {
    match word {
        "add" => writing::maybe_fraction(alloc, a.add(b)),
        "sub" => writing::maybe_fraction(alloc, a.sub(b)),
        "mul" => writing::maybe_fraction(alloc, a.mul(b)),
        "cmp" => order(alloc, a.cmp(b)),
        "hash" => writing::yes_or_no(alloc, hash_of(a) == hash_of(b)),
        _ => Err(Missing::Form),
    }
}

/// The answer to a case of fractions: `make NUM DEN`, `neg A`, `decimal TEXT`, `literal TEXT`, and `add`, `sub`, `mul`, `cmp` and
/// `hash` of two, where `hash` tells whether their hashes are equal.
pub(crate) fn answer(alloc: Global, word: &str, args: &str) -> Result<String, Missing> {
    match word {
        "decimal" => read(alloc, Frac::read_decimal(args)),
        "literal" => read(alloc, Frac::read_model(args)),
        "neg" => writing::fraction(alloc, &fraction(args)?.neg()),
        "make" => {
            let (num, den) = parts(args, ' ')?;
            writing::fraction(alloc, &made_fraction(number(num)?, number(den)?)?)
        }
        _ => {
            let (a, b) = parts(args, ' ')?;
            pair(alloc, word, &fraction(a)?, &fraction(b)?)
        }
    }
}
