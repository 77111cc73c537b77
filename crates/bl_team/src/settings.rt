//! What is set for a search.

/// How many workers there are, how many nodes may be made, and how many nodes the follower's solver may take at each
/// link.
#[derive(Clone, Copy, Debug)]
pub struct Settings {
    pub workers: u32,
    pub nodes: u32,
    pub follower_nodes: u32,
}
