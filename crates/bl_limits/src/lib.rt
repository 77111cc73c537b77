//! The limits of texts, models, problems and proofs: each number once, for code and contracts alike.
#![tactic(auto)]

/// The most bytes of an MPS or auxiliary text.
pub const MAX_TEXT_BYTES: usize = 16_777_216;

/// The most columns of a model.
pub const MAX_COLUMNS: usize = 120;

/// The most rows of an MPS text, rows that set a cost aside.
pub const MAX_TEXT_ROWS: usize = 200;

/// The most rows of a model: each row of the text has at most two sides.
pub const MAX_ROWS: usize = 400;

/// The most rows of a problem: those of a model, a value row and the cuts that a leaf may cite.
pub const MAX_PROBLEM_ROWS: usize = 465;

/// The most cuts that a leaf may cite.
pub const MAX_CUTS: usize = 64;

/// The greatest magnitude of a coefficient, a cost or a bound of a model.
pub const MAX_NUMBER: u64 = 10_000_000;

/// The greatest magnitude of a right-hand side or a range in an MPS text.
pub const MAX_TEXT_RHS: u64 = 1_000_000_000_000_000;

/// The greatest magnitude of a side of a row: a right-hand side and a range.
pub const MAX_RHS: u64 = 2_000_000_000_000_000;

/// The magnitude from which on a bound in an MPS text bounds nothing: `10^20`.
pub const NO_BOUND: u128 = 100_000_000_000_000_000_000;

/// The greatest magnitude of a whole number that is read from a text: `10^36`.
pub const MAX_WHOLE: u128 = 1_000_000_000_000_000_000_000_000_000_000_000_000;

/// The greatest magnitude of a coefficient of a problem's row, which may be a cut: `2^36`.
pub const MAX_PROBLEM_COEFFICIENT: u64 = 1 << 36;

/// The greatest magnitude of a problem's right-hand side: `2^62`.
pub const MAX_PROBLEM_RHS: u64 = 1 << 62;

/// The greatest magnitude of a number of a proof: a denominator, a multiplier, a number of an inverse: `2^50`.
pub const MAX_PROOF_NUMBER: i64 = 1 << 50;

/// The pivots that one relaxation may take: this many, and `PIVOTS_PER_LINE` more for each row and column.
pub const PIVOTS_AT_LEAST: u32 = 1_000;

/// See `PIVOTS_AT_LEAST`.
pub const PIVOTS_PER_LINE: u32 = 20;

/// The greatest and the usual count of nodes of a branch-and-bound tree.
pub const MAX_NODES: u32 = 2_000_000;

pub const DEFAULT_NODES: u32 = 200_000;

/// The greatest and the usual count of nodes of a follower's tree.
pub const MAX_FOLLOWER_NODES: u32 = 2_000_000;

pub const DEFAULT_FOLLOWER_NODES: u32 = 50_000;

/// The greatest and the usual count of workers.
pub const MAX_WORKERS: u32 = 64;

pub const DEFAULT_WORKERS: u32 = 4;

/// The upper bound of an integer column that no bound line names.
pub const DEFAULT_UPPER: i64 = 1;

/// The most entries of a pool.
pub const MAX_POOL_ENTRIES: u32 = 1_000_000;

/// The most cuts that are made at one node.
pub const MAX_NEW_CUTS: u32 = 4;

/// Cuts are made at nodes whose number is below this one.
pub const CUT_NODES: u32 = 500;
