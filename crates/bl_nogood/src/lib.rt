//! No-good cuts: made of the rows that hold with equality at a point, or proved from their parts.
#![tactic(auto)]

mod candidates;
mod costs;
mod kept;
mod make;
mod no_cut;
#[cfg(test)]
mod tests;

pub use bl_cut::{CutParts, CutStep, Cuts, ProvedCut, Tight};
pub use bl_cut_proof::{CutFault, prove_cut};
pub use make::make_cut;
pub use no_cut::NoCut;
