//! Nodes of a branch-and-bound tree: incumbents with the entries that show them, the problem of a box, licences to
//! split a box, closed leaves, and what a worker takes and leaves.
#![tactic(auto)]

mod distinct;
mod incumbent;
pub mod laws;
mod leaf;
mod licence;
mod problem;
mod task;
#[cfg(test)]
mod tests;

pub use incumbent::{Incumbent, ShowFail, cutoff_by, show};
pub use leaf::{Leaf, LeafFail, ProvedLeaf, prove_leaf};
pub use licence::{ProvedWhy, WhyFail, prove_why};
pub use problem::{leaf_problem, plain_problem, value_at};
pub use task::{State, Task};
