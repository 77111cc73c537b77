//! The rules that ask entries and cuts: what a stated point costs the follower, and what closes a leaf. Nothing of the
//! solver is called but the problem over which a bound is proved.
#![tactic(auto)]

mod cited;
mod closing;
mod links;
mod problem;

pub use closing::close;
pub use links::{has_follower, is_unanswered};
