//! What the rules of certificates ask of single lines, tested. Nothing of the solver is called: the tests only add up
//! whole numbers.
#![tactic(auto)]

mod answers;
mod entries;
mod listed;
mod places;
mod statement;

pub use answers::Answers;
pub use entries::{keeps_best, keeps_entry_proof};
pub use listed::multipliers;
pub use statement::{keeps_point, keeps_sense};
