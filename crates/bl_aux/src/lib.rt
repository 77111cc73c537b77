//! The auxiliary text: which columns and rows of a model are the follower's, what he pays, and in which sense.
//!
//! Each line has a key and a number. `N n` stands first and `M m` second: the counts of the follower's columns and of
//! his rows. Then `LC` gives a follower column's index, `LR` a follower row's index, `LO` a follower cost and `OS` the
//! sense (1 minimises, -1 maximises), in any order. The i-th `LO` belongs to the i-th `LC`.
#![tactic(auto)]

mod draft;
mod fault;
mod keys;
pub mod laws;
mod line;
mod places;
mod read;
mod stop;
mod write;

pub use fault::{AuxError, AuxFault, AuxRule};
pub use keys::Key;
pub use read::read_aux;
pub use write::write_aux;

#[cfg(test)]
mod tests;
