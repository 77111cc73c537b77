//! The work at a node of the branch-and-bound tree: its box is closed by a leaf, or divided with a licence.
//!
//! [`work`] relaxes the box over the leader's cost until it is closed or can't be. What it finds on the way, whole
//! points that are bilevel feasible and better responses that are, become incumbents and lower the cutoff. Where a
//! whole point has a better response, integer no-good cuts (DeNegre and Ralphs 2009) are tried before the box is
//! divided.
#![tactic(auto)]

mod cuts;
mod cutting;
mod division;
mod found;
mod judgement;
mod leaves;
mod nodes;
mod relaxation;
mod rounds;
mod scratch;
#[cfg(test)]
mod tests;

pub use bl_source::{KeepFail, Source};
pub use nodes::{WorkFail, Worked, work, work_with};
pub use scratch::Scratches;
