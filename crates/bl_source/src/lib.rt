//! Where a solver has the entries of links from: a source looks them up and keeps them, and what it hasn't is solved.
#![tactic(auto)]

mod entries;
mod source;
#[cfg(test)]
mod tests;

pub use entries::entry_for;
pub use source::{KeepFail, Source};
