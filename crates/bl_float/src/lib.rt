//! The simplex method in doubles, to lead a search whose answers are shown in whole numbers.
//!
//! It promises to be safe, to end, and how many numbers it lends, and nothing else: whoever uses a number of it tests
//! what follows from it.
#![tactic(auto)]

mod choice;
mod dictionary;
mod fine;
mod numbers;
mod simplex;
mod source;
#[cfg(test)]
mod tests;

pub use fine::FINE_UNIT;
pub use simplex::{End, FLOAT_PIVOTS_AT_LEAST, FLOAT_PIVOTS_PER_LINE, FloatSimplex};
