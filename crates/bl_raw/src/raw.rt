//! What a model's two texts say, before they are joined.

use crate::listed::Listed;

/// The bytes of a name.
pub type Name = Listed<u8>;

/// A row of the MPS text: `lo <= coef·z <= hi`, where a side that is `None` doesn't bound it.
#[derive(Debug, Drop)]
pub struct RawRow {
    pub name: Name,
    pub lo: Option<i64>,
    pub hi: Option<i64>,
}

/// A column of the MPS text: its range, its cost to the leader, and its nonzero coefficients as
/// pairs of a row and a number, in rising order of rows.
#[derive(Debug, Drop)]
pub struct RawColumn {
    pub name: Name,
    pub lo: i64,
    pub hi: i64,
    pub cost: i64,
    pub entries: Listed<(u32, i64)>,
}

/// What an MPS text says. The costs are the text's own; the leader minimises them, or maximises.
#[derive(Debug, Drop)]
pub struct RawMps {
    pub maximise: bool,
    pub objective: Name,
    pub rows: Listed<RawRow>,
    pub columns: Listed<RawColumn>,
}

/// What an auxiliary text says: the follower's columns, rows and costs in the order of the text,
/// and its sense, 1 where the follower minimises and -1 where he maximises.
#[derive(Debug, Drop)]
pub struct RawAux {
    pub columns: Listed<u32>,
    pub rows: Listed<u32>,
    pub costs: Listed<i64>,
    pub sense: i64,
}
