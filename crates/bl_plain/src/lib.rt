//! The plain solver: it walks every point of the box. Other solvers are compared with it.
#![tactic(auto)]

mod best;
mod follower;
mod leader;
#[cfg(test)]
mod tests;

pub use best::Optimum;
pub use leader::plain_best;
