//! The certificate of a finished book: what a search that is done writes down, and that it is accepted. Each law is the
//! contract of a function that does nothing.
#![tactic(auto)]

pub mod examples;
pub mod laws;
