//! Which of the rows that hold with equality at a point hold together at that point alone, and the inverse of their
//! coefficients, by Gauss-Jordan elimination over exact fractions.
#![tactic(auto)]

mod basis;
mod elimination;
mod inverse;
mod kept;
pub mod laws;
mod row;
mod rows;
#[cfg(test)]
mod tests;

pub use basis::{Basis, NoBasis};
pub use elimination::eliminate;
