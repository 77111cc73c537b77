//! Where a box is split: at a fractional column's floor, or at the middle of a widest column.
#![tactic(auto)]

mod fraction;
mod place;
#[cfg(test)]
mod tests;
mod width;

pub use fraction::fractional;
pub use place::{Place, can_split};
pub use width::{widest, widest_among};
