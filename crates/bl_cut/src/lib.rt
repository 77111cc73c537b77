//! No-good cuts that are proved, and lists of them.
//!
//! A [`ProvedCut`] keeps the cuts that it uses, so that its row is valid on its box whatever becomes of the others.
#![tactic(auto)]

mod cuts;
mod list;
mod proved;
mod step;
#[cfg(test)]
mod tests;

pub use bl_cut_terms::{CutParts, Tight};
pub use cuts::Cuts;
pub use proved::ProvedCut;
pub use step::{CutRow, CutStep};
