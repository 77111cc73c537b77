//! The exact relaxation of a problem over a box, by the dual simplex method.
//!
//! [`relax`] closes the box by a proof, finds a whole point of it below the cutoff, or gives a licence to split it. It
//! has an answer for every problem that fits.
#![tactic(auto)]

mod choice;
mod distance;
mod finish;
mod point;
mod relaxation;
mod relaxed;
mod repair;
mod rounding;
#[cfg(test)]
mod tests;

pub use bl_licence::{Why, why_holds};
pub use bl_point::whole_at;
pub use relaxation::relax;
pub use relaxed::Relaxed;
