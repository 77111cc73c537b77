//! Room for the relaxations at nodes, and what leads the branching.
use bl_branch::Guide;
use bl_led::Scratch;
use std::alloc::{AllocError, Global};

/// What is kept from node to node. There is room for the relaxations of boxes, of boxes with cuts, and of the follower,
/// each of which goes on from the last one of its kind, and what leads the branching. No answer depends on it but by
/// which one is found.
#[derive(Debug, Drop)]
pub struct Scratches {
    pub(crate) plain: Scratch,
    pub(crate) cut: Scratch,
    pub(crate) follower: Scratch,
    pub(crate) guide: Guide,
}

impl Scratches {
    /// Room that has seen no problem. Takes no memory.
    pub fn new(alloc: Global) -> Scratches {
        Scratches {
            plain: Scratch::new(alloc),
            cut: Scratch::new(alloc),
            follower: Scratch::new(alloc),
            guide: Guide::new(alloc),
        }
    }

    /// The node that had best be worked on next, out of those that were made by splits that were told.
    pub fn next_node(&mut self) -> Option<u32> {
        self.guide.next()
    }

    /// Tells that the box that was divided last was split into these nodes.
    pub fn split(&mut self, low: u32, high: u32) -> Result<(), AllocError> {
        self.guide.split(low, high)
    }
}
