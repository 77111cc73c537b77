//! What a no-good cut is made of.
use bl_raw::Listed;

/// A row that a cut adds up. Rows of the model, columns and earlier cuts are numbered from 0.
#[derive(Clone, Copy, Debug, PartialEq, Eq)]
pub enum Tight {
    /// A row of the model.
    Row(u32),
    /// The upper side of a column's range in the cut's box.
    Upper(u32),
    /// The lower side of a column's range in the cut's box.
    Lower(u32),
    /// An earlier cut.
    Cut(u32),
}

/// What shows a cut. The rows in `tight` hold with equality at `point`, and nowhere else: for each column there is a
/// list in `units` of places in `tight` with their multipliers, which combine the rows to `den` times that column
/// alone. The follower has a cheaper `response` at `point`, with a number for each of his columns.
#[derive(Debug, Drop)]
pub struct CutParts {
    pub tight: Listed<Tight>,
    pub den: i64,
    pub units: Listed<Listed<(u32, i64)>>,
    pub point: Listed<i64>,
    pub response: Listed<i64>,
}
