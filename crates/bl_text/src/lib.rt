//! Lines, fields and whole numbers of a text, as the readers of a model share them.
//!
//! A text is bytes in no particular encoding. A line ends at a line feed, which the last line may lack; a text that
//! ends in a line feed has no further empty line. Blanks are space, tab and carriage return alone, and fields are the
//! runs of other bytes.
#![tactic(auto)]

mod fields;
pub mod laws;
mod lines;
mod numbers;

pub use fields::{Fields, begins_with_blank, fields_of, split_field};
pub use lines::{Lines, lines_of, split_line};
pub use numbers::{plain_number, short_number};

#[cfg(test)]
mod tests;
