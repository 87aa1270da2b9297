//! The sum of a row at a point, and which of two rows says less.

ghost use Rattle.std.specs.Prelude.{◌≡◌, ◌↔◌, ◌⊎◌, IsTrue, IsFalse, length, pos, ◌<ℤ◌, SomeIff};
ghost use Rattle.poly_specs.specs.Bits.{NonePasses};
ghost use Rattle.poly_specs.specs.Columns.{IsDominated};
ghost use Rattle.poly_specs.specs.Evaluation.{running, eval_numbers};
ghost use Rattle.poly_specs.specs.Lists.{dot};
ghost use Rattle.poly_specs.specs.Rows.{over, row_value};

use crate::Row;
use crate::numbers::add_product;

impl Row {
    /// The row's sum at the numbers over `den`, times `den`. `None` where a product or a partial
    /// sum passes 128 bits: in the order of the columns, with `cst * den` last.
    pub fn eval(&self, num: &[i128], den: i128) -> Option<i128>
        requires sized { length num.now ≡ length self.now.coef }
        requires positive { pos 0 <ℤ den }
        ensures { SomeIff result (NonePasses (eval_numbers self.now num.now den)) (row_value self.now (over den num.now)) }
    {
        let sum = sum_of_products(self.coef.as_slice(), num)?;
        add_product(sum, self.cst, den)
    }

    /// Whether a says no more than b: the same sum below a bound that is no lower, and strictly
    /// only where b is strict or its bound is lower.
    pub fn dominated(a: &Row, b: &Row) -> bool
        ensures { IsTrue result ↔ IsDominated a.now b.now }
    {
        same_numbers(a.coef.as_slice(), b.coef.as_slice())
            && is_no_lower(a.cst, a.strict, b.cst, b.strict)
    }
}

/// The sum of the products, place by place.
fn sum_of_products(coef: &[i128], num: &[i128]) -> Option<i128>
    requires sized { length num.now ≡ length coef.now }
    ensures { SomeIff result (NonePasses (running (pos 0) coef.now num.now)) (dot coef.now num.now) }
{
    let mut sum = 0;
    for i in 0..coef.len() {
        sum = add_product(sum, coef[i], num[i])?;
    }
    Some(sum)
}

fn same_numbers(a: &[i128], b: &[i128]) -> bool
    ensures { IsTrue result ↔ (a.now ≡ b.now) }
{
    a == b
}

/// Whether the bound of a is no lower than that of b: of two sums, the one with the smaller
/// constant has the higher bound.
fn is_no_lower(a_cst: i128, a_strict: bool, b_cst: i128, b_strict: bool) -> bool
    ensures { IsTrue result ↔ ((a_cst <ℤ b_cst) ⊎ ((a_cst ≡ b_cst) × (IsTrue b_strict ⊎ IsFalse a_strict))) }
{
    a_cst < b_cst || (a_cst == b_cst && (b_strict || !a_strict))
}
