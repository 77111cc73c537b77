//! Whole numbers in texts.
//!
//! A number is an optional sign; then digits with an optional point and optional further digits, or a point and
//! digits; then optionally `e` or `E`, an optional sign and digits. Its value has to be whole, however it is spelled:
//! `1.50e1` is 15.
#![tactic(auto)]

mod fault;
pub mod laws;
mod magnitude;
mod parts;
mod read;
mod write;

pub use fault::NumFault;
pub use read::read_whole;
pub use write::put_whole;

#[cfg(test)]
mod tests;
