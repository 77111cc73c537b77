//! The pass over an MPS text: what a model's text says, or the first rule that it breaks.
//!
//! What a text says and when a line breaks a rule is defined in `bl_mps_terms`; `bl_mps` shows that this pass finds it.
#![tactic(auto)]

mod bounds;
mod coefficients;
mod columns;
mod error;
mod fields;
mod names;
mod numbers;
mod reader;
mod rows;
mod sections;
mod sides;
mod stop;

pub use bounds::Bounds;
pub use coefficients::Coefficients;
pub use columns::Columns;
pub use error::{MpsError, fault_at};
pub use names::NameTable;
pub use numbers::Numbers;
pub use reader::{Reader, read_lines};
pub use rows::{BoundedRow, Rows};
pub use sections::Sections;
