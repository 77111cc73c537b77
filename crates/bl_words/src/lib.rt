//! The words of the program's command line.
//!
//! The first word is the command. An option is its name as one word with its value as the next word, or `--name=value`;
//! options stand anywhere behind the command, each at most once. The other words are the command's files in order.
#![tactic(auto)]

mod commands;
mod items;
mod words;

pub use commands::{Choice, Command};
pub use words::{ModelWords, model_words};

#[cfg(test)]
mod tests;
