//! What a checker keeps of the lines of a certificate that it read, as far as later lines are judged by them.
#![tactic(auto)]

mod cuts;
mod said;

pub use cuts::{HeldCuts, LocalCut};
pub use said::Said;
