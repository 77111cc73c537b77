//! Solvers over the book: workers take nodes, work on them, and enter what becomes of them.
#![tactic(auto)]

mod alone;
mod settings;
#[cfg(test)]
mod tests;
mod turn;

pub use alone::solve_alone;
pub use settings::Settings;
