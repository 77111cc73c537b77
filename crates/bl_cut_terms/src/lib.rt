//! No-good cuts: what they are made of, when that shows them, and that every bilevel feasible point of a cut's box
//! meets its row (DeNegre and Ralphs 2009).
#![tactic(auto)]

pub mod laws;
mod parts;

pub use parts::{CutParts, Tight};
