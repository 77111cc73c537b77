//! The definitions of exact fractions and of the dual simplex method over a box: the dictionary, its pivots and
//! their replay, which pivots are legal, when a dictionary closes the box, and the licences to split it.
//!
//! The crate has no code of its own. What computes with fractions and dictionaries cites these definitions.
#![tactic(auto)]

pub mod facts;
