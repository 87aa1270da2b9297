//! What the programs of cases read and write: numbers, fractions, rows, systems and points.
//!
//! Numbers are written in decimal digits, fractions as `n` or `n/d`. A row is its coefficients and its constant, behind `<` where
//! it is strict; a system is its width and a colon, and then its rows between semicolons; a point is its numbers, `/` and its
//! denominator. Systems are written with their rows in the order of their texts.
#![tactic(auto)]

pub mod holding;
pub mod texts;
pub mod writing;

pub use texts::Missing;
