//! The lines of a certificate: what each says, its one spelling, and the reader and writer of one line.
//!
//! A certificate is a text of lines, each with its line feed. A line is words with one space between them: the word of
//! its form, and then numbers, pairs `i:m` and marks. Numbers are plain decimal: `-` only before a number below 0, no
//! leading zero. So each line has one spelling, and each spelling is of one line.
#![tactic(auto)]

mod body;
mod fields;
mod form;
pub mod laws;
mod line;
mod put;
mod read;
mod values;
mod words;

pub use fields::{next_line, pair_field, whole_field};
pub use line::{CertLine, TightItem};
pub use put::put_line;
pub use read::{pairs_rise, read_line, read_spelled};

#[cfg(test)]
mod tests;
