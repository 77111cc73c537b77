//! Relaxations led by floating point and shown in whole numbers.
//!
//! [`relax_led`] has the answers of [`bl_relax::relax`] and its contract. It looks for each of them in doubles, and
//! answers what an exact test has shown; where nothing is shown it relaxes exactly.
#![tactic(auto)]

mod closing;
mod fraction;
mod led;
mod repair;
mod rounding;
#[cfg(test)]
mod tests;

pub use led::{Scratch, relax_led};
