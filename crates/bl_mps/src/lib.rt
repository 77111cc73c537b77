//! The MPS text of a model, read and written.
//!
//! `bl_mps_terms` defines what a text says and which rule it breaks first, among whole lines, sections and names;
//! `bl_mps_read` makes one pass over the lines, `bl_mps_model` makes the model of what was read. This crate proves that
//! the two are one. `bl_mps_write` writes the canonical text; `bl_mps_laws` proves that it is read back.
#![tactic(auto)]

pub mod laws;
mod read;
#[cfg(test)]
mod tests;

pub use bl_mps_read::MpsError;
pub use bl_mps_terms::{MpsFault, MpsRule};
pub use bl_mps_write::write_mps;
pub use read::read_mps;
