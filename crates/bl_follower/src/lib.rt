//! The follower's solver: what he answers to a link, by branch and bound over the box of his columns, with a proof of
//! the answer and a licence of each split. Where the nodes that it may take are spent, that is told with the tree and
//! the licences of what was left.
#![tactic(auto)]

mod place;
mod response;
mod search;
mod solve;
mod spent;
#[cfg(test)]
mod tests;
mod work;

pub use bl_follower_tree::{Licensed, LicensedNode};
pub use bl_led::Scratch;
pub use solve::{FollowerFail, Solved, solve_follower, solve_follower_with};
pub use spent::Spent;
