//! The words of the command line, read by clap once they are understood.
//!
//! Which words are a command's is said and judged by `bl_words`. Where they are, clap reads them by a plain command: it
//! is proved that it can then refuse only for want of memory, and that its entries are the values that were judged.
#![tactic(auto)]

mod command;
mod words;

pub use words::model_words;

#[cfg(test)]
mod tests;
