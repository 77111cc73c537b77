//! What an MPS text says, which of its lines break a rule, and the words that it is written in.
//!
//! The definitions stand in `specs/`. The reader and the writer over them are `bl_mps`.
#![tactic(auto)]

mod fault;
mod words;

pub use fault::{MpsFault, MpsRule};
pub use words::{
    BoundKind, RowKind, Section, bound_kind, is_word, maximises, row_kind, section_named,
};
