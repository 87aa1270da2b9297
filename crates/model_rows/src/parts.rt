//! The parts of a sum: numbers, each in a column or in the constant.

ghost use Rattle.std.specs.Prelude.{◌≡◌, ◌++◌, IfOk, OnOk, map, length, option_map};
ghost use Rattle.model_specs.specs.Parts.{negative};
ghost use Rattle.model_specs.specs.Constraints as constraints;
ghost use Rattle.lang_specs.specs.Expressions as expressions;
ghost use Rattle.model_rows.specs.Columns.{is_at};

use crate::names::place_in;
use frac128::Frac;
use lang_trees::{Sign, Term};
use lha_model::Name;
use std::alloc::{AllocError, Global};
use std::marker::Model;

/// A number that is added to a column, or, where there is no column, to the constant.
#[derive(Clone, Copy, Debug)]
pub(crate) struct Part {
    pub(crate) column: Option<usize>,
    pub(crate) value: Frac,
}

impl Model for Part {
    ghost use Rattle.model_specs.specs.Parts as parts;

    ghost Value = { parts.Part };

    ghost view = { λ p. record { column = p.column; value = p.value } };

    ghost inverse = { λ p. record { column = p.column; value = p.value } };
}

impl Part {
    /// Taken away instead of added.
    pub(crate) fn negative(&self) -> Part
        ensures { result ≡ negative self.now }
    {
        Part {
            column: self.column,
            value: self.value.neg(),
        }
    }

    /// Whether it is added to this place: a column, or the constant where there is none.
    pub(crate) fn is_at(&self, place: Option<usize>) -> bool
        ensures { result ≡ is_at place self.now.column }
    {
        match (place, self.column) {
            (None, None) => true,
            (Some(j), Some(i)) => i == j,
            _ => false,
        }
    }

    /// The number.
    pub(crate) fn value(&self) -> Frac
        ensures { result ≡ self.now.value }
    {
        self.value
    }

    /// The same number in the column of time, where it stood in the constant.
    fn with_time(&self, m: usize) -> Part
        ensures { result ≡ constraints.with_time m self.now }
    {
        match self.column {
            None => Part {
                column: Some(m),
                value: self.value,
            },
            Some(_) => *self,
        }
    }
}

/// The number of a term, with its sign.
fn signed(term: &Term) -> Frac
    ensures { result ≡ expressions.signed term.now.neg term.now.value }
{
    if term.neg() {
        term.value().neg()
    } else {
        *term.value()
    }
}

/// The column of a variable; none for a number alone.
fn column_of(vars: &[Name], var: Option<&Name>) -> Option<usize>
    ensures { result ≡ constraints.column_of vars.now (option_map (λ x. x.now) var.entry) }
{
    match var {
        None => None,
        Some(name) => Some(place_in(vars, name)),
    }
}

/// A term: its number, in the column of its variable.
fn part_of(vars: &[Name], term: &Term) -> Part
    ensures { result ≡ constraints.part_of vars.now term.now }
{
    Part {
        column: column_of(vars, term.var()),
        value: signed(term),
    }
}

/// A term of slopes: a number alone stands for so much of each unit of time.
fn timed_part_of(vars: &[Name], term: &Term) -> Part
    ensures { result ≡ constraints.with_time (length vars.now) (constraints.part_of vars.now term.now) }
{
    part_of(vars, term).with_time(vars.len())
}

/// The parts of an expression, in order.
pub(crate) fn parts_of(
    alloc: Global,
    vars: &[Name],
    terms: &[Term],
) -> Result<Vec<Part>, AllocError>
    ensures { IfOk result (λ v. v.items ≡ constraints.parts_of vars.now terms.now) }
{
    let mut parts = Vec::new(alloc);
    for term in terms {
        parts.push(part_of(vars, term))?;
    }
    Ok(parts)
}

/// The parts of an expression of slopes, in order.
pub(crate) fn timed_parts_of(
    alloc: Global,
    vars: &[Name],
    terms: &[Term],
) -> Result<Vec<Part>, AllocError>
    ensures { IfOk result (λ v. v.items ≡ map (constraints.with_time (length vars.now)) (constraints.parts_of vars.now terms.now)) }
{
    let mut parts = Vec::new(alloc);
    for term in terms {
        parts.push(timed_part_of(vars, term))?;
    }
    Ok(parts)
}

/// Appends parts as they are.
fn push_parts(sum: &mut Vec<Part>, parts: &[Part]) -> Result<(), AllocError>
    ensures { OnOk result (sum.new.items ≡ sum.old.items ++ parts.now) }
{
    for part in parts {
        sum.push(*part)?;
    }
    Ok(())
}

/// Appends parts that are taken away instead of added.
fn push_negatives(sum: &mut Vec<Part>, parts: &[Part]) -> Result<(), AllocError>
    ensures { OnOk result (sum.new.items ≡ sum.old.items ++ map negative parts.now) }
{
    for part in parts {
        sum.push(part.negative())?;
    }
    Ok(())
}

/// Both sides of a comparison on one: the sum that is to be at most 0.
pub(crate) fn sides(
    alloc: Global,
    sign: Sign,
    left: &[Part],
    right: &[Part],
) -> Result<Vec<Part>, AllocError>
    ensures { IfOk result (λ v. v.items ≡ constraints.sides sign left.now right.now) }
{
    let mut sum = Vec::new(alloc);
    match sign {
        Sign::AtMost | Sign::Less | Sign::Equal => {
            push_parts(&mut sum, left)?;
            push_negatives(&mut sum, right)?;
        }
        Sign::AtLeast | Sign::Greater => {
            push_negatives(&mut sum, left)?;
            push_parts(&mut sum, right)?;
        }
    }
    Ok(sum)
}
