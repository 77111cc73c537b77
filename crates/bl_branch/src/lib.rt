//! What leads the branching of a search: where a box is split, and which node comes next.
//!
//! It promises to be safe and to end, and nothing else: whoever takes a place or a node of it tests what it is. Columns
//! have pseudo-costs (Benichou and others 1971): how much the bound rose for each unit by which a split moved the
//! column, on the average. The node of least bound comes next.
#![tactic(auto)]

mod choice;
mod guide;
mod numbers;
mod pseudo_costs;
mod queue;
#[cfg(test)]
mod tests;

pub use guide::Guide;
