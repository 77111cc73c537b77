//! Why a step is refused. Where a node is told, it is how far it is, and none where there is no such node.
ghost use Rattle.std.specs.Prelude.{◌≡◌};
ghost use Rattle.bl_core.specs.declared.fail.SplitFail.TheVariants as split;
ghost use Rattle.bl_core.specs.declared.fail.CloseFail.TheVariants as close;
ghost use Rattle.bl_core.specs.declared.fail.TaskFail.TheVariants as task;

use bl_tree::{ProvedWhy, State};
use std::alloc::AllocError;

/// The node isn't ready.
#[derive(Clone, Copy, Debug, PartialEq, Eq)]
pub struct NotReady {
    pub kept: Option<State>,
}

/// The node isn't claimed by this worker.
#[derive(Clone, Copy, Debug, PartialEq, Eq)]
pub struct NotYours {
    pub kept: Option<State>,
}

/// What is handed in is of another model than the book.
#[derive(Clone, Copy, Debug, PartialEq, Eq)]
pub struct OtherModel;

/// Why a node isn't split.
#[derive(Debug, Drop)]
pub enum SplitFail {
    /// The node isn't claimed by this worker.
    NotYours { kept: Option<State> },
    /// The licence is of another model.
    OtherModel,
    /// The halves or the licence are of another box than the node's.
    OtherBox,
    /// There was this best value at the claim, and the licence has a higher cutoff or none.
    OldCutoff { kept: i64 },
    /// So many nodes were made, and the limit has no place for two more. The licence is handed back.
    Full { made: u32, why: ProvedWhy },
}

impl From<NotYours> for SplitFail {
    ghost from_gives = { λ fail e. e ≡ split.NotYours fail.kept };

    fn from(fail: NotYours) -> SplitFail {
        SplitFail::NotYours { kept: fail.kept }
    }
}

/// Why a node isn't closed.
#[derive(Clone, Copy, Debug, PartialEq, Eq)]
pub enum CloseFail {
    /// The node isn't claimed by this worker.
    NotYours { kept: Option<State> },
    /// The leaf is of another model.
    OtherModel,
    /// The leaf is of another box than the node's.
    OtherBox,
}

impl From<NotYours> for CloseFail {
    ghost from_gives = { λ fail e. e ≡ close.NotYours fail.kept };

    fn from(fail: NotYours) -> CloseFail {
        CloseFail::NotYours { kept: fail.kept }
    }
}

/// Why there is no task.
#[derive(Clone, Copy, Debug, PartialEq, Eq)]
pub enum TaskFail {
    /// The node isn't claimed by this worker.
    NotYours { kept: Option<State> },
    Memory,
}

impl From<NotYours> for TaskFail {
    ghost from_gives = { λ fail e. e ≡ task.NotYours fail.kept };

    fn from(fail: NotYours) -> TaskFail {
        TaskFail::NotYours { kept: fail.kept }
    }
}

impl From<AllocError> for TaskFail {
    ghost from_gives = { λ _ e. e ≡ task.Memory };

    fn from(_error: AllocError) -> TaskFail {
        TaskFail::Memory
    }
}
