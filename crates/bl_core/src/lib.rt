//! The book of a branch-and-bound search that workers share: which nodes there are and what has become of them, the
//! best incumbent, and the journal of all steps. Each call enters one step, and takes only those that are allowed, so
//! that what a finished book says is true whoever entered its steps and in whatever order.
#![tactic(auto)]

mod book;
mod event;
mod fail;
pub mod laws;
mod node;
mod outcome;
mod steps;
mod tables;
mod tasks;
#[cfg(test)]
mod tests;

pub use book::Book;
pub use event::Event;
pub use fail::{CloseFail, NotReady, NotYours, OtherModel, SplitFail, TaskFail};
pub use outcome::{Ended, Outcome};
