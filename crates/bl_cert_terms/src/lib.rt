//! Certificates of answers to bilevel programs, and when one is accepted. The law is that an accepted certificate's
//! statement is true of the program, whoever wrote the certificate and whatever found the answer. It rests on the
//! definitions of programs, trees, bound proofs, follower proofs and cuts alone. Each law is the contract of a function
//! that does nothing.
#![tactic(auto)]

pub mod examples;
pub mod laws;
mod stated;

pub use stated::Statement;
