//! Entries of the follower that are kept for use again, one for each link of a model.
//!
//! A [`Kept`] is made by [`Pool::put`] and [`Kept::copy`] alone.
#![tactic(auto)]

mod fail;
mod kept;
pub mod laws;
mod pool;
#[cfg(test)]
mod tests;

pub use fail::PutFail;
pub use kept::Kept;
pub use pool::Pool;
