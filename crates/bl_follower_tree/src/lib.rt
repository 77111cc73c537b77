//! Trees over the box of the follower's columns, grown box by box in preorder: what has licences so far, what has
//! proofs so far, and which boxes are still to be worked on.
#![tactic(auto)]

mod growing;
mod licensed;
#[cfg(test)]
mod tests;

pub use growing::GrowingTree;
pub use licensed::{Licensed, LicensedNode};
