//! Answers of the follower with their proofs.
use bl_bound::Proof;
use bl_raw::Listed;

/// A step of a follower proof. The steps of a tree stand in preorder, a split before its halves and
/// the lower half first.
#[derive(Debug, Drop)]
pub enum Step {
    /// Splits the box at hand at a place of a column: up to it, and above. The column is numbered
    /// among the follower's own.
    Split { column: u32, at: i64 },
    /// Closes the box at hand by a bound proof.
    Shut(Proof),
}

/// A tree over the box of the follower's columns.
#[derive(Debug, Drop)]
pub struct FollowerProof {
    pub steps: Listed<Step>,
}

/// What the follower answers to a link, and a proof of it.
#[derive(Debug, Drop)]
pub enum Answered {
    /// A response of least cost, with a number for each of the follower's columns, and its cost.
    Best {
        response: Listed<i64>,
        value: i64,
        proof: FollowerProof,
    },
    /// There is no response.
    NoResponse {
        proof: FollowerProof,
    },
}
