//! When the text of a certificate is accepted, where and by which rule another text is refused, and what the text of a
//! certificate is. Each law is the contract of a function that does nothing.
#![tactic(auto)]

pub mod laws;
mod rule;

pub use rule::CertRule;
