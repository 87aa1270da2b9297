//! Arithmetic on 128-bit integers, where a result that passes 128 bits is no result.
//!
//! A number passes 128 bits where its absolute value is above `2^127 - 1`: so the least value of
//! the type does.
#![tactic(auto)]

mod divisors;
mod numbers;

pub use divisors::greatest_divisor;
pub use numbers::{all_kept, is_kept, kept_difference, kept_product, kept_sum};
