//! What the next lines of a certificate have to be.

use crate::region::Region;
use bl_model::Listed;

/// What the next lines of a text have to be, as a part of its grammar.
#[derive(Drop)]
pub enum Part {
    /// `mibs-certificate 1` or `mibs-certificate 2`.
    Version,
    /// The leader's sense.
    Sense,
    /// What the text states.
    Statement,
    /// A point of the model's box.
    Point,
    /// How many entries there are.
    EntryCount,
    /// So many entries, at least one, each with a link above the one before it.
    Entries {
        left: u64,
        last: Option<Listed<i64>>,
    },
    /// The answer of an entry.
    Answer,
    /// A tree of the follower over a box, whose leaves are proofs.
    FollowerTree {
        area: Region,
    },
    /// How many cuts there are.
    CutCount,
    /// The cuts from a place on, at least one, of so many.
    Cuts {
        place: u64,
        count: u64,
    },
    /// The box of the cut at this place.
    CutArea {
        place: u64,
    },
    /// The tight items of the cut at this place.
    Tight {
        place: u64,
    },
    /// The denominator of an inverse, where there are so many tight items.
    Inverse {
        items: usize,
    },
    /// So many units, at least one, over so many tight items.
    Units {
        left: usize,
        items: usize,
    },
    /// A cut's point.
    At,
    /// A cut's response.
    Response,
    /// The head of the tree, where there are so many cuts.
    Head {
        cuts: u64,
    },
    /// A tree of the leader over a box, where there are so many cuts.
    Tree {
        area: Region,
        cuts: u64,
    },
    /// The last line.
    End,
}

/// The parts that are expected in place of one whose line was read.
#[derive(Drop)]
pub enum Following {
    Nothing,
    One(Part),
    Two(Part, Part),
}
