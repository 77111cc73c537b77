//! Trees with licences.
use bl_licence::Why;
use bl_raw::Listed;

/// A node of a tree over the box of the follower's columns.
#[derive(Debug, Drop)]
pub enum LicensedNode {
    /// Splits the box at hand at a place of a column: up to it, and above. The column is numbered among the
    /// follower's own.
    Split { column: u32, at: i64, why: Why },
    /// A leaf that a bound proof closes.
    Shut,
    /// A leaf that is left open, with a licence to split it, or without one where it has but one point.
    Left(Option<Why>),
}

/// A tree, its nodes in preorder: a split before its halves and the lower half first.
#[derive(Debug, Drop)]
pub struct Licensed {
    pub nodes: Listed<LicensedNode>,
}
