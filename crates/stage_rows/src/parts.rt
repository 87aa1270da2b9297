//! Rows that are put together from parts of another row.

ghost use Rattle.std.specs.Prelude.{◌≡◌, ◌+◌, ◌<◌, ◌≤◌, ◌++◌, All, length, map, neg_ℤ, slice_set};
ghost use Rattle.poly_specs.specs.Bits.{FitsBits};
ghost use Rattle.poly_specs.specs.KeptRows.{IsKeptRow};
ghost use Rattle.poly_specs.specs.Rows.{with_coef};
ghost use Rattle.run_specs.specs.Stages.{zeros as zero_numbers};
ghost use Rattle.smallvec.specs.SmallVec.{small_vec_len};

use lin_row::Row;
use smallvec::SmallVec;
use std::alloc::Global;

/// So many zeros, at most 14.
pub fn zeros(alloc: Global, count: usize) -> SmallVec<i128, 14>
    requires { count ≤ 14 }
    ensures { result.items ≡ zero_numbers count }
{
    SmallVec::from_elem(alloc, 0, count).unwrap()
}

/// So many numbers, at most 14: this one at this place, and 0 at the others.
pub fn only(alloc: Global, count: usize, at: usize, number: i128) -> SmallVec<i128, 14>
    requires few { count ≤ 14 }
    requires within { at < count }
    ensures { result.items ≡ slice_set (zero_numbers count) at number }
{
    let mut numbers = zeros(alloc, count);
    set(&mut numbers, at, number);
    numbers
}

fn set(numbers: &mut SmallVec<i128, 14>, at: usize, number: i128)
    requires { at < length numbers.old.items }
    ensures { numbers.new.items ≡ slice_set numbers.old.items at number }
{
    numbers.as_mut_slice()[at] = number;
}

/// The number's negation.
pub fn opposite(number: i128) -> i128
    requires { FitsBits number }
    ensures { result ≡ neg_ℤ number }
{
    -number
}

/// The negations of these numbers, at most 14 of them.
pub fn negated(alloc: Global, numbers: &[i128]) -> SmallVec<i128, 14>
    requires few { length numbers.now ≤ 14 }
    requires fits { All FitsBits numbers.now }
    ensures { result.items ≡ map neg_ℤ numbers.now }
{
    let mut turned = SmallVec::new(alloc);
    for number in numbers {
        turned.push_reserved(opposite(*number));
    }
    turned
}

/// The row with the coefficients of these three parts, one after the other, and the constant and
/// the mark of the given row. Its numbers are to have no common divisor.
pub fn joined(alloc: Global, row: &Row, first: &[i128], middle: &[i128], last: &[i128]) -> Row
    requires kept { IsKeptRow (with_coef (first.now ++ middle.now ++ last.now) row.now) }
    ensures { result ≡ with_coef (first.now ++ middle.now ++ last.now) row.now }
{
    let mut coef = SmallVec::new(alloc);
    add(&mut coef, first);
    add(&mut coef, middle);
    add(&mut coef, last);
    Row::make_as(alloc, coef.as_slice(), row.cst(), row.strict())
}

fn add(numbers: &mut SmallVec<i128, 14>, more: &[i128])
    requires inline { numbers.old.capacity ≡ 14 }
    requires few { small_vec_len numbers.old + length more.now ≤ 14 }
    ensures items { numbers.new.items ≡ numbers.old.items ++ more.now }
    ensures same { numbers.new.capacity ≡ 14 }
{
    for number in more {
        numbers.push_reserved(*number);
    }
}
