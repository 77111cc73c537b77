//! The dictionary of the dual simplex method over exact fractions, and its pivots.
#![tactic(auto)]

pub mod laws;
mod legal;
mod opening;
mod place;
mod rows;
mod tableau;
#[cfg(test)]
mod tests;

pub use legal::wins_ratio_test;
pub use tableau::{Tableau, Wide};
