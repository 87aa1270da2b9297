//! Numbers, rows, systems and points as a case writes them.

ghost use Rattle.std.specs.Prelude.{◌↔◌, All, IsTrue};
ghost use Rattle.poly_specs.specs.Bits.{FitsBits};

use fm_eliminate::{RowFault, System};
use frac128::Frac;
use lin_row::{Passes, Point, Row};
use std::alloc::{AllocError, AllocFailed, Global};

/// Why a case has no answer.
#[derive(Debug, Drop)]
pub enum Missing {
    /// It is no case: its words or its numbers are not those of a call.
    Form,
    /// A number passed 128 bits.
    Passes,
    /// There was no memory.
    Memory,
}

impl Missing {
    /// What stands for the answer of the case.
    pub fn word(&self) -> &'static str {
        match self {
            Missing::Form => "form",
            Missing::Passes => "passes",
            Missing::Memory => "memory",
        }
    }
}

impl From<AllocError> for Missing {
    fn from(_e: AllocError) -> Missing {
        Missing::Memory
    }
}

impl<T: Drop> From<AllocFailed<T>> for Missing {
    fn from(_e: AllocFailed<T>) -> Missing {
        Missing::Memory
    }
}

impl From<Passes> for Missing {
    fn from(_e: Passes) -> Missing {
        Missing::Passes
    }
}

impl From<RowFault> for Missing {
    fn from(e: RowFault) -> Missing {
        match e {
            RowFault::Passes => Missing::Passes,
            RowFault::Memory => Missing::Memory,
        }
    }
}

/// What stands before the first of these signs and what stands behind it, without blanks at their ends.
pub fn parts(text: &str, sign: char) -> Result<(&str, &str), Missing> {
    match text.split_once(sign) {
        Some((before, behind)) => Ok((before.trim(), behind.trim())),
        None => Err(Missing::Form),
    }
}

pub fn number(text: &str) -> Result<i128, Missing> {
    match text.trim().parse::<i128>() {
        Ok(number) => Ok(number),
        Err(_) => Err(Missing::Form),
    }
}

/// A place or a width.
pub fn place(text: &str) -> Result<usize, Missing> {
    match text.trim().parse::<usize>() {
        Ok(number) => Ok(number),
        Err(_) => Err(Missing::Form),
    }
}

/// A number of at most 255.
pub fn small(text: &str) -> Result<u8, Missing> {
    match text.trim().parse::<u8>() {
        Ok(number) => Ok(number),
        Err(_) => Err(Missing::Form),
    }
}

pub fn numbers(alloc: Global, text: &str) -> Result<Vec<i128>, Missing> {
    let mut all = Vec::new(alloc);
    for word in text.split_whitespace() {
        all.push(number(word)?)?;
    }
    Ok(all)
}

pub fn places(alloc: Global, text: &str) -> Result<Vec<usize>, Missing> {
    let mut all = Vec::new(alloc);
    for word in text.split_whitespace() {
        all.push(place(word)?)?;
    }
    Ok(all)
}

pub fn smalls(alloc: Global, text: &str) -> Result<Vec<u8>, Missing> {
    let mut all = Vec::new(alloc);
    for word in text.split_whitespace() {
        all.push(small(word)?)?;
    }
    Ok(all)
}

/// Whether the number is not the type's least.
fn is_kept(number: i128) -> bool
    ensures { IsTrue result ↔ FitsBits number }
{
    number != i128::MIN
}

fn all_kept(numbers: &[i128]) -> bool
    ensures { IsTrue result ↔ All FitsBits numbers.now }
{
    numbers.iter().all(|number| is_kept(*number))
}

/// The fraction, over a denominator above 0.
pub fn made_fraction(num: i128, den: i128) -> Result<Frac, Missing> {
    if den > 0 && is_kept(num) {
        Ok(Frac::make(num, den))
    } else {
        Err(Missing::Form)
    }
}

pub fn fraction(text: &str) -> Result<Frac, Missing> {
    match text.split_once('/') {
        Some((num, den)) => made_fraction(number(num)?, number(den)?),
        None => made_fraction(number(text)?, 1),
    }
}

/// The row of these numbers.
pub fn made_row(alloc: Global, coef: &[i128], cst: i128, strict: bool) -> Result<Row, Missing> {
    if coef.len() <= 14 && all_kept(coef) && is_kept(cst) {
        Ok(Row::make_as(alloc, coef, cst, strict))
    } else {
        Err(Missing::Form)
    }
}

pub fn row(alloc: Global, text: &str) -> Result<Row, Missing> {
    let (strict, text) = match text.trim().strip_prefix('<') {
        Some(rest) => (true, rest),
        None => (false, text),
    };
    let mut coef = numbers(alloc, text)?;
    match coef.pop() {
        Some(cst) => made_row(alloc, &coef, cst, strict),
        None => Err(Missing::Form),
    }
}

fn rows(alloc: Global, text: &str) -> Result<Vec<Row>, Missing> {
    let mut all = Vec::new(alloc);
    for one in text.split(';') {
        if !one.trim().is_empty() {
            all.push(row(alloc, one)?)?;
        }
    }
    Ok(all)
}

/// A width and rows, which are no system where a row has another width.
pub fn maybe_system(alloc: Global, text: &str) -> Result<Option<System>, Missing> {
    let (width, all) = parts(text, ':')?;
    Ok(System::make(place(width)?, rows(alloc, all)?))
}

pub fn system(alloc: Global, text: &str) -> Result<System, Missing> {
    match maybe_system(alloc, text)? {
        Some(system) => Ok(system),
        None => Err(Missing::Form),
    }
}

/// Numbers and a denominator, which are no point where it is not above 0 or a number is the type's least.
pub fn maybe_point(alloc: Global, text: &str) -> Result<Option<Point>, Missing> {
    let (num, den) = parts(text, '/')?;
    Ok(Point::make(numbers(alloc, num)?, number(den)?))
}

pub fn point(alloc: Global, text: &str) -> Result<Point, Missing> {
    match maybe_point(alloc, text)? {
        Some(point) => Ok(point),
        None => Err(Missing::Form),
    }
}
