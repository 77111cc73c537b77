//! What is done with a node.
use crate::incumbent::Incumbent;
use bl_cut::Cuts;
use bl_model::{Bilevel, Box2};
use std::alloc::Global;
use std::sync::Arc;

/// A node that a worker has taken, with all that the work on it reads.
#[derive(Debug, Drop)]
pub struct Task {
    pub worker: u32,
    pub node: u32,
    pub model: Arc<Bilevel, Global>,
    pub area: Arc<Box2, Global>,
    pub best: Option<Arc<Incumbent, Global>>,
    pub cuts: Cuts,
}

/// How far a node is.
#[derive(Clone, Copy, Debug, PartialEq, Eq)]
pub enum State {
    Ready,
    /// Taken by a worker, when the best incumbent had this cost.
    Claimed { worker: u32, best: Option<i64> },
    Split,
    Closed,
}
