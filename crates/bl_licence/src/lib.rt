//! The licences to split a box, and the test that decides whether one holds.
//!
//! A licence is either a fractional point that meets the rows below the cutoff, or a run of legal pivots of the dual
//! simplex method that passes 128 bits, the limit of pivots, or the limit of proof numbers.
#![tactic(auto)]

mod closing;
mod common;
mod fractional;
mod replay;
#[cfg(test)]
mod tests;
mod vertex;
mod why;

pub use closing::{closes, cost_closes, first_closing_row};
pub use common::{common_denominator, whole_multiples};
pub use fractional::is_fractional;
pub use replay::{closes_past_limit, is_point_past_limit, may_pivot, pivot_limit};
pub use vertex::{basic_values, cost_multipliers, is_feasible, row_multipliers};
pub use why::{Why, why_holds};
