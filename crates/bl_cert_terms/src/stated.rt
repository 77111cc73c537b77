//! What an answer states of a program.
use bl_raw::Listed;

/// What an answer states of a program.
#[derive(Debug, Drop)]
pub enum Statement {
    /// The point, with a number for each column, is bilevel feasible and none is better. The value is its value in the
    /// sense in which the leader's cost was given.
    Optimal { point: Listed<i64>, value: i64 },
    /// No point is bilevel feasible.
    Infeasible,
}
