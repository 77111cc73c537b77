//! Definitions of branch and bound over a bilevel program: incumbents, the problem of a box and the licences to split
//! it, and what closes a box. Each law is the contract of a function that does nothing.
#![tactic(auto)]

pub mod laws;
