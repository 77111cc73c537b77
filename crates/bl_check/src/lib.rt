//! The checker of certificates: whether a text is accepted as a certificate of a model, and what it then states; else
//! the first line at which it is refused, and the rule. It only adds up whole numbers, and calls nothing of the solver.
#![tactic(auto)]

mod checker;
mod cuts;
mod entry;
mod nodes;
mod stated;
mod text;

pub use bl_cert_terms::Statement;
pub use bl_check_terms::CertRule;
pub use bl_check_walk::CheckFail;
pub use text::check;

#[cfg(test)]
mod tests;
