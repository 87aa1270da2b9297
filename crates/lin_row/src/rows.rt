//! Rows: how they are made and read.

ghost use Rattle.std.specs.Prelude.{◌≡◌, ◌≤◌, ◌↔◌, IsTrue, SomeIff, All, length, false};
ghost use Rattle.poly_specs.specs.Bits.{FitsBits};
ghost use Rattle.poly_specs.specs.Elimination.{divided};
ghost use Rattle.poly_specs.specs.KeptRows.{IsKeptRow};

use crate::Row;
use crate::numbers::{inline_copy, reduce};
use checked_integers::{all_kept, is_kept};
use std::alloc::Global;

impl Row {
    /// Whether a row may have these numbers: at most 14 coefficients, and none of the numbers is the
    /// least value of the type.
    pub fn fits(coef: &[i128], cst: i128) -> bool
        ensures { IsTrue result ↔ (length coef.now ≤ 14) × All FitsBits coef.now × FitsBits cst }
    {
        coef.len() <= 14 && all_kept(coef) && is_kept(cst)
    }

    /// The row with this mark, its numbers divided by their greatest common divisor. `None` exactly
    /// where there are more than 14 coefficients, or a number is the least value of the type.
    pub fn try_make(alloc: Global, coef: &[i128], cst: i128, strict: bool) -> Option<Row>
        ensures { SomeIff result ((length coef.now ≤ 14) × All FitsBits coef.now × FitsBits cst) (divided (record { coef = coef.now; cst = cst; strict = strict })) }
    {
        if !Row::fits(coef, cst) {
            return None;
        }
        Some(Row::make_as(alloc, coef, cst, strict))
    }

    /// The row that is not strict, its numbers divided by their greatest common divisor.
    pub fn make(alloc: Global, coef: &[i128], cst: i128) -> Row
        requires few { length coef.now ≤ 14 }
        requires coef_fits { All FitsBits coef.now }
        requires cst_fits { FitsBits cst }
        ensures { result ≡ divided (record { coef = coef.now; cst = cst; strict = false }) }
    {
        Row::make_as(alloc, coef, cst, false)
    }

    /// The row with this mark, its numbers divided by their greatest common divisor.
    pub fn make_as(alloc: Global, coef: &[i128], cst: i128, strict: bool) -> Row
        requires few { length coef.now ≤ 14 }
        requires coef_fits { All FitsBits coef.now }
        requires cst_fits { FitsBits cst }
        ensures { result ≡ divided (record { coef = coef.now; cst = cst; strict = strict }) }
    {
        let mut divided = inline_copy(alloc, coef);
        let cst = reduce(&mut divided, cst);
        Row {
            coef: divided,
            cst,
            strict,
        }
    }

    /// The coefficient of each column.
    pub fn coef(&self) -> &[i128]
        ensures value { result.now ≡ self.now.coef }
        ensures kept { IsKeptRow self.now }
    {
        self.coef.as_slice()
    }

    /// The constant.
    pub fn cst(&self) -> i128
        ensures value { result ≡ self.now.cst }
        ensures kept { IsKeptRow self.now }
    {
        self.cst
    }

    /// Whether the row is strict: its sum is to be below 0.
    pub fn strict(&self) -> bool
        ensures value { result ≡ self.now.strict }
        ensures kept { IsKeptRow self.now }
    {
        self.strict
    }

    /// The same row.
    pub fn copy(&self) -> Row
        ensures { result ≡ self.now }
    {
        Row {
            coef: inline_copy(*self.coef.allocator(), self.coef.as_slice()),
            cst: self.cst,
            strict: self.strict,
        }
    }
}
