//! The row of a sum of parts.

ghost use Rattle.std.specs.Prelude.{◌≡◌, ◌≤◌, ◌++◌, ◌∷◌, [], ◌^◌, length, map, All, false, SomeIff, Err, IfOk, OnOk, neg_ℤ};
ghost use Rattle.poly_specs.specs.Bits.{NonePasses, FitsBits};
ghost use Rattle.poly_specs.specs.Denominators.{common_nums, common_numbers};
ghost use Rattle.poly_specs.specs.Fractions.{zero_fraction};
ghost use Rattle.poly_specs.specs.Elimination.{divided, numbers};
ghost use Rattle.poly_specs.specs.Systems.{negated};
ghost use Rattle.model_specs.specs.Parts.{total_from, total_numbers_from, sums, row_over, row_of_parts, part_numbers};
ghost use Rattle.model_rows.specs.Columns.{values_at, sums_numbers};

use crate::RowFault;
use crate::parts::Part;
use frac128::{Frac, over_common};
use lin_row::Row;
use smallvec::SmallVec;
use std::alloc::{AllocError, Global};

/// The sum with a part more, if that is added to this place. `None` where a number on the way passes 128 bits.
fn with_part(sum: Frac, place: Option<usize>, part: &Part) -> Option<Frac>
    ensures { SomeIff result (NonePasses (total_numbers_from sum (values_at place (part.now ∷ [])))) (total_from sum (values_at place (part.now ∷ []))) }
{
    if part.is_at(place) {
        sum.add(&part.value())
    } else {
        Some(sum)
    }
}

/// The sum of the numbers that are added to this place, in order. `None` where a number on the way passes 128 bits.
fn total(parts: &[Part], place: Option<usize>) -> Option<Frac>
    ensures { SomeIff result (NonePasses (total_numbers_from zero_fraction (values_at place parts.now))) (total_from zero_fraction (values_at place parts.now)) }
{
    let mut sum = Frac::make(0, 1);
    for part in parts {
        sum = with_part(sum, place, part)?;
    }
    Some(sum)
}

fn push(totals: &mut Vec<Frac>, sum: Frac) -> Result<(), AllocError>
    ensures { OnOk result (totals.new.items ≡ totals.old.items ++ sum ∷ []) }
{
    totals.push(sum)?;
    Ok(())
}

/// Appends the sum of the numbers that are added to this place. `Passes` only where a number on the way passes 128 bits.
fn push_total(totals: &mut Vec<Frac>, parts: &[Part], place: Option<usize>) -> Result<(), RowFault>
    ensures ok { OnOk result (totals.new.items ≡ totals.old.items ++ total_from zero_fraction (values_at place parts.now) ∷ []) }
    ensures kept { OnOk result (NonePasses (total_numbers_from zero_fraction (values_at place parts.now))) }
    ensures passes { result ≡ Err RowFault.Passes → NonePasses (total_numbers_from zero_fraction (values_at place parts.now)) → ⊥ }
{
    match total(parts, place) {
        None => Err(RowFault::Passes),
        Some(sum) => {
            push(totals, sum)?;
            Ok(())
        }
    }
}

/// The sums of the columns, and then of the constant. `Passes` only where a number on the way passes 128 bits.
fn sums(alloc: Global, width: usize, parts: &[Part]) -> Result<Vec<Frac>, RowFault>
    ensures ok { IfOk result (λ v. v.items ≡ sums width parts.now) }
    ensures kept { IfOk result (λ v. NonePasses (sums_numbers width parts.now)) }
    ensures passes { result ≡ Err RowFault.Passes → NonePasses (sums_numbers width parts.now) → ⊥ }
{
    let mut totals = Vec::new(alloc);
    for j in 0..width {
        push_total(&mut totals, parts, Some(j))?;
    }
    push_total(&mut totals, parts, None)?;
    Ok(totals)
}

/// The row of these numbers, of which the last is the constant, divided.
fn row_over(alloc: Global, strict: bool, nums: &[i128]) -> Row
    requires some { 1 ≤ length nums.now }
    requires few { length nums.now ≤ 15 }
    requires fit { NonePasses nums.now }
    ensures { result ≡ divided (row_over strict nums.now) }
{
    let last = nums.len() - 1;
    Row::make_as(alloc, &nums[..last], nums[last], strict)
}

/// The row of these sums, of which the last is that of the constant. `None` where a number on the way passes 128 bits.
fn row_of_sums(alloc: Global, strict: bool, totals: &[Frac]) -> Option<Row>
    requires some { 1 ≤ length totals.now }
    requires few { length totals.now ≤ 15 }
    ensures { SomeIff result (NonePasses (common_numbers totals.now)) (divided (row_over strict (common_nums totals.now))) }
{
    let common = over_common(alloc, totals)?;
    Some(row_over(alloc, strict, common.nums.as_slice()))
}

/// The row that says that the sum of the parts is at most 0, or below 0 where strict. `Passes` only where a number on the way
/// passes 128 bits, and some fault where one does.
pub(crate) fn row_of_parts(
    alloc: Global,
    width: usize,
    strict: bool,
    parts: &[Part],
) -> Result<Row, RowFault>
    requires { width ≤ 14 }
    ensures ok { IfOk result (λ r. r ≡ row_of_parts width strict parts.now) }
    ensures kept { IfOk result (λ r. NonePasses (part_numbers width parts.now)) }
    ensures passes { result ≡ Err RowFault.Passes → NonePasses (part_numbers width parts.now) → ⊥ }
{
    let totals = sums(alloc, width, parts)?;
    match row_of_sums(alloc, strict, totals.as_slice()) {
        None => Err(RowFault::Passes),
        Some(row) => Ok(row),
    }
}

/// The number's negation.
pub(crate) fn opposite(number: i128) -> i128
    requires { FitsBits number }
    ensures { result ≡ neg_ℤ number }
{
    -number
}

/// The negations of these numbers.
fn opposites(alloc: Global, numbers: &[i128]) -> SmallVec<i128, 14>
    requires few { length numbers.now ≤ 14 }
    requires fits { All FitsBits numbers.now }
    ensures { result.items ≡ map neg_ℤ numbers.now }
{
    let mut turned = SmallVec::new(alloc);
    for number in numbers {
        turned.push_reserved(opposite(*number));
    }
    turned
}

/// The row with all numbers negated.
pub(crate) fn negated(alloc: Global, row: &Row) -> Row
    ensures { result ≡ negated row.now }
{
    let turned = opposites(alloc, row.coef());
    Row::make_as(alloc, turned.as_slice(), opposite(row.cst()), row.strict())
}

/// Appends two rows.
pub(crate) fn push_two(rows: &mut Vec<Row>, first: Row, second: Row) -> Result<(), AllocError>
    ensures { OnOk result (rows.new.items ≡ rows.old.items ++ first ∷ second ∷ []) }
{
    rows.push(first)?;
    rows.push(second)?;
    Ok(())
}
