//! The outside, as traits: files (`Shelf`), outputs (`Sink`) and a gate (`Gate`).
//!
//! Whatever goes wrong outside is counted there, so that a caller's answer has a cause that a contract
//! can name. What the files and outputs hold is told where they can tell it, as those in memory do.
#![tactic(auto)]

mod count;
mod dir_shelf;
mod fault_plan;
mod gate;
mod mem_file;
mod mem_shelf;
mod mem_sink;
mod shelf;
mod sink;
mod std_sink;
#[cfg(test)]
mod tests;
mod text;

pub use dir_shelf::DirShelf;
pub use gate::{Gate, NoGate, Stage};
pub use mem_shelf::MemShelf;
pub use mem_sink::MemSink;
pub use shelf::{Found, Shelf, ShelfFail};
pub use sink::{Sink, SinkFail};
pub use std_sink::StdSink;
pub use text::{Got, ReadFail, read_text};
