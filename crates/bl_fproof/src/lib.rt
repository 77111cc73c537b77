//! What the follower can answer to the values of the linking columns, and proofs of it: a tree over
//! the box of the follower's columns whose leaves are closed by bound proofs.
//!
//! [`admit`] makes an [`Entry`] of an answer whose proof it has tested, so that each entry is true.
#![tactic(auto)]

mod answered;
mod entry;
mod link;
mod part;
mod picked;
mod response;
mod rows;
#[cfg(test)]
mod tests;
mod walk;

pub use answered::{Answered, FollowerProof, Step};
pub use entry::{AdmitFail, Entry, admit};
pub use link::is_link;
pub use part::Part;
pub use rows::{FollowerRow, FollowerRows};
pub use walk::first_failing_step;
