//! What a model's two texts say, before they are joined, and the list that public types hold.
#![tactic(auto)]

mod listed;
mod raw;
#[cfg(test)]
mod tests;

pub use listed::Listed;
pub use raw::{Name, RawAux, RawColumn, RawMps, RawRow};
