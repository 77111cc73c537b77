//! The optimum of a dictionary that doesn't close its box.
#![tactic(auto)]

pub mod laws;
