//! What a worker gets to work on.
ghost use Rattle.std.specs.Prelude.{IfOk, IfErr};
ghost use Rattle.bl_core.specs.Tasks.{IsTaskOf};
ghost use Rattle.bl_core.specs.Refusals.{IsTaskFailure};

use crate::book::Book;
use crate::fail::TaskFail;
use bl_tree::Task;

impl Book {
    /// All that the work on a node reads that this worker has claimed, with the best incumbent of now.
    pub fn task_of(&self, worker: u32, node: u32) -> Result<Task, TaskFail>
        ensures ok { IfOk result (IsTaskOf self.now.ledger.book worker node) }
        ensures err { IfErr result (IsTaskFailure self.now.ledger.book worker node) }
    {
        self.claim_of(worker, node)?;
        let (Some(area), Some(cuts)) = (self.shared_area(node), self.cuts_of(node)) else {
            unreachable!()
        };
        Ok(Task {
            worker,
            node,
            model: self.model().clone()?,
            area: area.clone()?,
            best: self.share_best()?,
            cuts: cuts.copy()?,
        })
    }
}
