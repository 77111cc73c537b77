//! The bilevel model: what the texts say, the program that is made of it, and boxes of its columns.
#![tactic(auto)]

mod bilevel;
mod boxes;
mod equality;
mod halves;
mod join;
mod places;
mod points;
mod row;
#[cfg(test)]
mod tests;

pub use bilevel::Bilevel;
pub use bl_raw::{Listed, Name, RawAux, RawColumn, RawMps, RawRow};
pub use boxes::Box2;
pub use equality::same;
pub use halves::Halves;
pub use join::build;
pub use row::BRow;
