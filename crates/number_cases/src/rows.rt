//! Cases of rows and points.

ghost use Rattle.std.specs.Prelude.{◌↔◌, ◌≡◌, ◌<◌, All, IsTrue, pos};
ghost use Rattle.poly_specs.specs.Columns.{AreDistinct};
ghost use Rattle.poly_specs.specs.Lists.{In};

use case_texts::texts::{maybe_point, numbers, parts, place, places, row};
use case_texts::{Missing, writing};
use lin_row::Row;
use std::alloc::Global;

/// Whether the place is none of these.
fn is_absent(x: usize, places: &[usize]) -> bool
    ensures { IsTrue result → In x places.now → ⊥ }
{
    match places {
        [] => true,
        [first, rest @ ..] => *first != x && is_absent(x, rest),
    }
}

/// Whether no place stands twice.
pub(crate) fn are_distinct(to: &[usize]) -> bool
    ensures { IsTrue result → AreDistinct to.now }
{
    match to {
        [] => true,
        [first, rest @ ..] => is_absent(*first, rest) && are_distinct(rest),
    }
}

/// Whether each place is below the width.
pub(crate) fn are_below(to: &[usize], width: usize) -> bool
    ensures { IsTrue result → All (λ x. x < width) to.now }
{
    to.iter().all(|x| *x < width)
}

pub(crate) fn all_zero(numbers: &[i128]) -> bool
    ensures { IsTrue result ↔ All (λ c. c ≡ pos 0) numbers.now }
{
    numbers.iter().all(|number| *number == 0)
}

/// The combination of a lower and an upper row, without a column.
fn combined(alloc: Global, lower: &Row, upper: &Row, x: usize) -> Result<String, Missing> {
    if lower.coef().len() != upper.coef().len() || x >= lower.coef().len() {
        return Err(Missing::Form);
    }
    if lower.coef()[x] >= 0 || upper.coef()[x] <= 0 {
        return Err(Missing::Form);
    }
    writing::row(alloc, &Row::combine(lower, upper, x)?)
}

fn value(alloc: Global, given: &Row, num: &[i128], den: i128) -> Result<String, Missing> {
    if num.len() != given.coef().len() || den <= 0 {
        return Err(Missing::Form);
    }
    match given.eval(num, den) {
        Some(sum) => Ok(format!(in alloc; "{sum}")?),
        None => writing::word(alloc, "none"),
    }
}

fn placed(alloc: Global, given: &Row, to: &[usize], width: usize) -> Result<String, Missing> {
    if to.len() == given.coef().len() && width <= 14 && are_distinct(to) && are_below(to, width) {
        writing::row(alloc, &given.place(to, width))
    } else {
        Err(Missing::Form)
    }
}

fn cut(alloc: Global, given: &Row, width: usize) -> Result<String, Missing> {
    if width <= given.coef().len() && all_zero(&given.coef()[width..]) {
        writing::row(alloc, &given.cut(width))
    } else {
        Err(Missing::Form)
    }
}

fn copied(alloc: Global, given: &Row) -> Result<String, Missing> {
    let copy = given.copy();
    if copy == *given {
        writing::row(alloc, &copy)
    } else {
        Err(Missing::Form)
    }
}

/// `eval ROW | NUMBERS / DENOMINATOR`
fn value_of(alloc: Global, args: &str) -> Result<String, Missing> {
    let (given, at) = parts(args, '|')?;
    let (num, den) = parts(at, '/')?;
    value(
        alloc,
        &row(alloc, given)?,
        &numbers(alloc, num)?,
        case_texts::texts::number(den)?,
    )
}

/// `place WIDTH | PLACES | ROW`
fn placed_of(alloc: Global, args: &str) -> Result<String, Missing> {
    let (width, rest) = parts(args, '|')?;
    let (to, given) = parts(rest, '|')?;
    placed(
        alloc,
        &row(alloc, given)?,
        &places(alloc, to)?,
        place(width)?,
    )
}

/// `combine COLUMN | LOWER | UPPER`
fn combined_of(alloc: Global, args: &str) -> Result<String, Missing> {
    let (x, rest) = parts(args, '|')?;
    let (lower, upper) = parts(rest, '|')?;
    combined(alloc, &row(alloc, lower)?, &row(alloc, upper)?, place(x)?)
}

/// The answer to a case of rows: `row ROW`, `cut WIDTH | ROW`, `dominated ROW | ROW`, `point POINT`, and those above.
pub(crate) fn answer(alloc: Global, word: &str, args: &str) -> Result<String, Missing> {
    match word {
        "row" => copied(alloc, &row(alloc, args)?),
        "combine" => combined_of(alloc, args),
        "eval" => value_of(alloc, args),
        "place" => placed_of(alloc, args),
        "cut" => {
            let (width, given) = parts(args, '|')?;
            cut(alloc, &row(alloc, given)?, place(width)?)
        }
        "dominated" => {
            let (a, b) = parts(args, '|')?;
            writing::yes_or_no(alloc, Row::dominated(&row(alloc, a)?, &row(alloc, b)?))
        }
        "point" => match maybe_point(alloc, args)? {
            Some(point) => writing::point(alloc, &point),
            None => writing::word(alloc, "none"),
        },
        _ => Err(Missing::Form),
    }
}
