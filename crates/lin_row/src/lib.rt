//! Rows and points of 128-bit integers.
//!
//! No call takes memory: a row has at most 14 columns, which lie in the row itself.
#![tactic(auto)]

mod columns;
mod combining;
mod evaluation;
mod numbers;
mod points;
mod rows;

use smallvec::SmallVec;
use std::marker::Model;

/// A number passed 128 bits: its absolute value is above `2^127 - 1`.
#[derive(Clone, Copy, Debug, PartialEq, Eq)]
pub struct Passes;

/// A point: an integer for each coordinate, over one positive denominator.
///
/// No number passes 128 bits. The numbers need not be in lowest terms.
#[derive(Debug, Drop)]
pub struct Point {
    num: Vec<i128>,
    den: i128,
}

impl Model for Point {
    ghost use Rattle.poly_specs.specs.Rows.{Point as PointValue, over};
    ghost use Rattle.poly_specs.specs.KeptRows.{IsKeptPoint};

    ghost Value = { PointValue };

    ghost view = { λ p. over p.den p.num.items };

    ghost invariant = { λ p. IsKeptPoint (over p.den p.num.items) };
}

/// A linear row: the sum of `coef[j] * x_j` plus `cst` is at most 0; of a strict row, below 0.
///
/// It has at most 14 columns. Its numbers have no common divisor unless all are 0, and none
/// passes 128 bits. Rows with the same coefficients, constant and mark are equal.
#[derive(PartialEq, Eq, Hash, Debug, Drop)]
pub struct Row {
    coef: SmallVec<i128, 14>,
    cst: i128,
    strict: bool,
}

impl Model for Row {
    ghost use Rattle.std.specs.Prelude.{◌≡◌};
    ghost use Rattle.std.proofs.Common.{sym};
    ghost use Rattle.poly_specs.specs.Rows.{Row as RowValue};
    ghost use Rattle.poly_specs.specs.KeptRows.{IsKeptRow};

    ghost Value = { RowValue };

    ghost view = { λ r. record { coef = r.coef.items; cst = r.cst; strict = r.strict } };

    ghost invariant = { λ r. IsKeptRow (record { coef = r.coef.items; cst = r.cst; strict = r.strict }) × (r.coef.capacity ≡ 14) };

    ghost inverse = { λ r. record { coef = record { items = r.coef; capacity = 14 }; cst = r.cst; strict = r.strict } };

    ghost inverse_ok = { λ r h i. record { coef = record { items = r.coef.items; capacity = sym h.1 i }; cst = r.cst; strict = r.strict } };
}
