//! The combination of two rows in which a column cancels.

ghost use Rattle.std.specs.Prelude.{◌≡◌, ◌↔◌, ◌/◌, ◌≤◌, ◌<◌, ◌^◌, ◌||◌, All, IsSome, IfSome, IfOk, IfErr, [], length, map, pos, ◌<ℤ◌, ◌*ℤ◌, ◌+ℤ◌, unsigned_abs};
ghost use Rattle.poly_specs.specs.Bits.{FitsBits, NonePasses, SomePasses};
ghost use Rattle.poly_specs.specs.Elimination.{gcd, times, added, raw_combination, combination, pair_numbers};
ghost use Rattle.poly_specs.specs.Lists.{plus};
ghost use Rattle.poly_specs.specs.Rows.{Point, Holds, coef_at};
ghost use Rattle.lin_row.specs.Mixing.{RowsFit, mixed_numbers};

use crate::numbers::{all_small, is_small, narrow, narrow_sum, reduce, sum_of_two, whole_part};
use crate::{Passes, Row};
use checked_integers::greatest_divisor;
use smallvec::SmallVec;

impl Row {
    /// The combination of a lower and an upper row, without column `x`. `Passes` where a product or
    /// a sum on the way to it passes 128 bits.
    pub fn combine(lower: &Row, upper: &Row, x: usize) -> Result<Row, Passes>
        requires widths { length lower.now.coef ≡ length upper.now.coef }
        requires lower { coef_at x lower.now <ℤ pos 0 }
        requires upper { pos 0 <ℤ coef_at x upper.now }
        ensures ok { IfOk result (λ r. (r ≡ combination x lower.now upper.now) × NonePasses (pair_numbers x lower.now upper.now)) }
        ensures passes { IfErr result (λ e. SomePasses (pair_numbers x lower.now upper.now)) }
        ensures implied { IfOk result (λ r. (p : Point) → Holds lower.now p → Holds upper.now p → Holds r p) }
        ensures free { IfOk result (λ r. coef_at x r ≡ pos 0) }
    {
        let mut coef = SmallVec::new(*lower.coef.allocator());
        let Some(raw) = Row::raw_combination(&mut coef, lower, upper, x) else {
            return Err(Passes);
        };
        let cst = reduce(&mut coef, raw);
        let strict = either(lower.strict, upper.strict);
        Ok(Row { coef, cst, strict })
    }

    /// The numbers of the combination before they are divided: it fills the coefficients, and gives
    /// the constant.
    fn raw_combination(
        coef: &mut SmallVec<i128, 14>,
        lower: &Row,
        upper: &Row,
        x: usize,
    ) -> Option<i128>
        requires empty { coef.old ≡ record { items = []; capacity = 14 } }
        requires widths { length lower.now.coef ≡ length upper.now.coef }
        requires lower { coef_at x lower.now <ℤ pos 0 }
        requires upper { pos 0 <ℤ coef_at x upper.now }
        ensures kept { IsSome result ↔ NonePasses (pair_numbers x lower.now upper.now) }
        ensures coef { IfSome result (λ c. coef.new.items ≡ (raw_combination x lower.now upper.now).coef) }
        ensures few { IfSome result (λ c. length coef.new.items ≤ 14) }
        ensures cst { IfSome result (λ c. c ≡ (raw_combination x lower.now upper.now).cst) }
        ensures inline { coef.new.capacity ≡ 14 }
    {
        let (p, q) = factors(lower.coef.as_slice()[x], upper.coef.as_slice()[x]);
        Row::mixed_row(coef, lower, p, upper, q)
    }

    /// The numbers of `p` times one row and `q` times the other, added: it fills the coefficients,
    /// and gives the constant.
    fn mixed_row(
        coef: &mut SmallVec<i128, 14>,
        lower: &Row,
        p: i128,
        upper: &Row,
        q: i128,
    ) -> Option<i128>
        requires empty { coef.old ≡ record { items = []; capacity = 14 } }
        requires widths { length lower.now.coef ≡ length upper.now.coef }
        ensures kept { IsSome result ↔ RowsFit p lower.now q upper.now }
        ensures coef { IfSome result (λ c. coef.new.items ≡ (added (times p lower.now) (times q upper.now)).coef) }
        ensures few { IfSome result (λ c. length coef.new.items ≤ 14) }
        ensures cst { IfSome result (λ c. c ≡ (added (times p lower.now) (times q upper.now)).cst) }
        ensures inline { coef.new.capacity ≡ 14 }
    {
        let cst = sum_of_two(p, lower.cst, q, upper.cst)?;
        mixed_coef(coef, p, lower.coef.as_slice(), q, upper.coef.as_slice())?;
        Some(cst)
    }
}

fn either(a: bool, b: bool) -> bool
    ensures { result ≡ (a || b) }
{
    a || b
}

/// What two rows are multiplied by, so that the coefficients cancel.
fn factors(lower: i128, upper: i128) -> (i128, i128)
    requires lower_fits { FitsBits lower }
    requires lower { lower <ℤ pos 0 }
    requires upper { pos 0 <ℤ upper }
    ensures lower { result.0 ≡ pos (unsigned_abs upper / gcd (unsigned_abs lower) (unsigned_abs upper)) }
    ensures upper { result.1 ≡ pos (unsigned_abs lower / gcd (unsigned_abs lower) (unsigned_abs upper)) }
{
    let a = lower.unsigned_abs();
    let b = upper.unsigned_abs();
    let shared = greatest_divisor(a, b);
    (whole_part(b, shared) as i128, whole_part(a, shared) as i128)
}

/// Fills in the sums of the coefficients' multiples. `None` where one of the three passes 128 bits.
fn mixed_coef(
    sums: &mut SmallVec<i128, 14>,
    p: i128,
    lower: &[i128],
    q: i128,
    upper: &[i128],
) -> Option<()>
    requires empty { sums.old ≡ record { items = []; capacity = 14 } }
    requires few { length lower.now ≤ 14 }
    requires sized { length lower.now ≡ length upper.now }
    ensures kept { IsSome result ↔ NonePasses (mixed_numbers p lower.now q upper.now) }
    ensures items { IfSome result (λ u. sums.new.items ≡ plus (map (λ c. p *ℤ c) lower.now) (map (λ c. q *ℤ c) upper.now)) }
    ensures inline { sums.new.capacity ≡ 14 }
{
    if is_small(p) && is_small(q) && all_small(lower) && all_small(upper) {
        small_mixed_coef(sums, narrow(p), lower, narrow(q), upper);
        return Some(());
    }
    large_mixed_coef(sums, p, lower, q, upper)
}

/// As `mixed_coef`, for small numbers: nothing passes, and nothing is tested.
#[inline(never)]
fn small_mixed_coef(sums: &mut SmallVec<i128, 14>, p: i64, lower: &[i128], q: i64, upper: &[i128])
    requires empty { sums.old ≡ record { items = []; capacity = 14 } }
    requires few { length lower.now ≤ 14 }
    requires sized { length lower.now ≡ length upper.now }
    requires p { unsigned_abs p < 2 ^ 62 }
    requires q { unsigned_abs q < 2 ^ 62 }
    requires lower { All (λ z. unsigned_abs z < 2 ^ 62) lower.now }
    requires upper { All (λ z. unsigned_abs z < 2 ^ 62) upper.now }
    ensures fits { NonePasses (mixed_numbers p lower.now q upper.now) }
    ensures items { sums.new.items ≡ plus (map (λ c. p *ℤ c) lower.now) (map (λ c. q *ℤ c) upper.now) }
    ensures inline { sums.new.capacity ≡ 14 }
{
    for i in 0..lower.len() {
        sums.push_reserved(narrow_sum(p, lower[i], q, upper[i]));
    }
}

/// As `mixed_coef`, for numbers of any size: each is tested.
#[inline(never)]
fn large_mixed_coef(
    sums: &mut SmallVec<i128, 14>,
    p: i128,
    lower: &[i128],
    q: i128,
    upper: &[i128],
) -> Option<()>
    requires empty { sums.old ≡ record { items = []; capacity = 14 } }
    requires few { length lower.now ≤ 14 }
    requires sized { length lower.now ≡ length upper.now }
    ensures kept { IsSome result ↔ NonePasses (mixed_numbers p lower.now q upper.now) }
    ensures items { IfSome result (λ u. sums.new.items ≡ plus (map (λ c. p *ℤ c) lower.now) (map (λ c. q *ℤ c) upper.now)) }
    ensures inline { sums.new.capacity ≡ 14 }
{
    for i in 0..lower.len() {
        sums.push_reserved(sum_of_two(p, lower[i], q, upper[i])?);
    }
    Some(())
}
