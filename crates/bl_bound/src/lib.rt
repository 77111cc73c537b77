//! Problems over a box: rows, a cost to be minimised, and the range of each column, all lent. And proofs by dual
//! multipliers that a box has no point that meets the rows, or none below a cutoff.
#![tactic(auto)]

mod plain;
mod problem;
mod proof;
mod sizes;
mod sums;
#[cfg(test)]
mod tests;

pub use plain::plain_close;
pub use problem::{Problem, ProblemRow};
pub use proof::{Proof, holds};
