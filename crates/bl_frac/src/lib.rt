//! Exact fractions whose parts stay within 128 bits.
//!
//! A [`Frac`] is in lowest terms. [`add`], [`sub`], [`mul`] and [`div`] give the rational result, or [`WideFrac`]
//! exactly where a number on the way, which their contracts name, has a magnitude above `2^127 - 1`.
//! [`compare`] and [`floor`] are exact for all fractions. Nothing here takes memory.
#![tactic(auto)]

mod arithmetic;
mod divisor;
mod fraction;
pub mod laws;
mod narrow;
mod order;
#[cfg(test)]
mod tests;

pub use arithmetic::{add, div, mul, negation, sub};
pub use divisor::gcd;
pub use fraction::{Frac, WideFrac, is_negative, is_whole, parts, reduced, whole};
pub use order::{compare, floor};
