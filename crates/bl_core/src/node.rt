//! Nodes as a book keeps them: by the places of steps in the journal.
ghost use Rattle.std.specs.Prelude.{◌≡◌};
ghost use Rattle.bl_core.specs.Tables.{told_state};

use bl_tree::State;

/// Where a node's box and cuts come from: it is the root, or a half of the split at a place of the journal.
#[derive(Clone, Copy, Debug)]
pub(crate) enum Origin {
    Root,
    Low { split: u32 },
    High { split: u32 },
}

/// What has become of a node, with the place of the step in the journal.
#[derive(Clone, Copy, Debug)]
pub(crate) enum Status {
    Ready,
    Claimed { worker: u32, best: Option<i64> },
    Split { event: u32, low: u32 },
    Closed { event: u32 },
}

#[derive(Clone, Copy, Debug)]
pub(crate) struct Node {
    pub(crate) origin: Origin,
    pub(crate) status: Status,
}

/// How far a node of this status is.
pub(crate) fn state_of(status: Status) -> State
    ensures { result ≡ told_state status }
{
    match status {
        Status::Ready => State::Ready,
        Status::Claimed { worker, best } => State::Claimed { worker, best },
        Status::Split { .. } => State::Split,
        Status::Closed { .. } => State::Closed,
    }
}
