//! A dictionary that closes its box gives a bound proof, by the duality of linear programs.
#![tactic(auto)]

pub mod laws;
