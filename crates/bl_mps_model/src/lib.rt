//! The model of the lines that were read, and the faults of a text as a whole.
#![tactic(auto)]

mod entries;
mod model;
mod read;
mod rows;
mod whole;

pub use read::read_mps;
