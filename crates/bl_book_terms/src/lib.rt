//! Definitions of the book of a branch-and-bound search that workers share: its states, the steps that they enter, and
//! what every run of such steps keeps. Each law is the contract of a function that does nothing.
#![tactic(auto)]

pub mod laws;
