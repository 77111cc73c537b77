//! Laws of whole numbers that std lacks, and arithmetic whose clauses are equations.
//!
//! The laws are lemmas of `proofs/`: the ring laws and products against order (`Products`), sums
//! by place (`SumLemmas`), sizes (`WithinLemmas`) and a test for identities of polynomials
//! (`IdentityLemmas`). The functions of `int64` and `int128` compute with `i64` and `i128`. What
//! they need, that the answer fits, follows from sizes.
#![tactic(auto)]

mod dots;
pub mod int128;
pub mod int64;
pub mod laws;
#[cfg(test)]
mod tests;

pub use dots::dot_product;
