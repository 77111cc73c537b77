//! The rules of the cuts of a certificate, line by line: a line is tested by what was kept of the lines before it, and
//! where it keeps its rule it is kept too. Nothing of the solver is called.
#![tactic(auto)]

mod area;
mod inverses;
mod places;
mod points;
mod rows;
mod sums;

pub use area::begin;
pub use inverses::{inverse, unit};
pub use points::{point, response};
pub use sums::size;
