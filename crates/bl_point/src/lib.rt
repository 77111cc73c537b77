//! Tests of a whole point against a problem: its box, its rows and its cost.
#![tactic(auto)]

mod point;
#[cfg(test)]
mod tests;

pub use point::{cost_at, whole_at};
