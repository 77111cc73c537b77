//! No-good cuts: when their parts show them.
#![tactic(auto)]

mod fault;
mod items;
mod lists;
mod moved;
mod prove;
mod response;
mod rows;
mod same;
mod shown;
mod size;
mod steps;
mod sums;
#[cfg(test)]
mod tests;
mod tight;
mod units;

pub use fault::CutFault;
pub use prove::prove_cut;
pub use response::has_better_response;
pub use rows::{copied, side, tight_row, tight_rows};
pub use shown::assemble;
pub use size::is_usable;
pub use steps::adopt_used;
pub use sums::{is_unit_of, lowered_sum};
pub use tight::{hold_with_equality, holds_at};
