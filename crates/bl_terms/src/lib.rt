//! The definitions of bilevel integer programs that every answer rests on, and their laws.
//!
//! The definitions stand in `specs/`, one file for each subject. Each law is the contract of a
//! function that does nothing.
#![tactic(auto)]

pub mod bounds;
pub mod examples;
pub mod follower_proofs;
pub mod points;
pub mod programs;
pub mod responses;
pub mod trees;
