//! The writer of the canonical MPS text.
#![tactic(auto)]

mod form;
mod put;
mod sections;
mod write;

pub use write::write_mps;
