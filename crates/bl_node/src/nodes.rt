//! The work at a node.
ghost use Rattle.std.specs.Prelude.{◌≡◌, ◌≤◌, IfOk, IfErr};
ghost use Rattle.std.specs.Arc.{arc_value};
ghost use Rattle.bl_terms.specs.Points.{Fixes};
ghost use Rattle.bl_terms.specs.Responses.{IsLink};
ghost use Rattle.bl_leaf_terms.specs.Nodes.{fixed_link};
ghost use Rattle.bl_source.specs.Sources.{KeepsEntries};
ghost use Rattle.bl_node.specs.Works.{IsJob, IsSoundJob, job_of, IsWorked, IsWorkFailure};
ghost use Rattle.bl_node.specs.declared.nodes.WorkFail.TheVariants.{Memory, FollowerSpent};

use crate::cuts::NodeCuts;
use crate::division::divide;
use crate::leaves::{closed_with_value, closed_without_answer};
use crate::relaxation::{Relaxation, relax_fixed};
use crate::rounds::{Round, cut_round};
use crate::scratch::Scratches;
use bl_cut::Cuts;
use bl_follower::{FollowerFail, Spent};
use bl_model::Halves;
use bl_source::{Source, entry_for};
use bl_tree::{Incumbent, ProvedLeaf, ProvedWhy, Task, value_at};
use std::alloc::{AllocError, Global};
use std::sync::Arc;

/// What becomes of a node, and the last incumbent that was found there.
#[derive(Debug, Drop)]
pub enum Worked {
    /// A leaf that closes its box.
    Close {
        leaf: ProvedLeaf,
        found: Option<Arc<Incumbent, Global>>,
    },
    /// The halves of its box, a licence to split it, and the cuts that the halves inherit.
    Divide {
        halves: Halves,
        why: ProvedWhy,
        cuts: Cuts,
        found: Option<Arc<Incumbent, Global>>,
    },
}

/// Why the work at a node has no answer.
#[derive(Debug, Drop)]
pub enum WorkFail {
    /// The follower's solver would need more nodes at a link than it may take.
    FollowerSpent(Spent),
    Memory,
}

impl From<AllocError> for WorkFail {
    ghost from_gives = { λ _ e. e ≡ Memory };

    fn from(_error: AllocError) -> WorkFail {
        WorkFail::Memory
    }
}

impl From<FollowerFail> for WorkFail {
    ghost use Rattle.bl_node.specs.Works.{fails_as};

    ghost from_gives = { λ fail e. e ≡ fails_as fail };

    fn from(fail: FollowerFail) -> WorkFail {
        match fail {
            FollowerFail::Spent(spent) => WorkFail::FollowerSpent(spent),
            FollowerFail::Memory => WorkFail::Memory,
        }
    }
}

/// The numbers of a box in the linking columns.
fn link_at(alloc: Global, task: &Task) -> Result<Vec<i64>, AllocError>
    requires job { IsSoundJob (job_of task.now) }
    ensures value { IfOk result (λ link. link.items ≡ fixed_link (job_of task.now).program (job_of task.now).area) }
    ensures link { IfOk result (λ link. IsLink (job_of task.now).program link.items) }
{
    task.model.link_of(alloc, task.area.lo())
}

/// Works on a box that fixes the linking columns.
fn work_fixed<S: Source>(
    alloc: Global,
    task: &Task,
    pool: &mut S,
    follower_nodes: u32,
    scratches: &mut Scratches,
) -> Result<Worked, WorkFail>
    requires job { IsSoundJob (job_of task.now) }
    requires fixes { Fixes (job_of task.now).area (job_of task.now).program.links }
    requires budget { 1 ≤ follower_nodes }
    ensures ok { IfOk result (IsWorked (job_of task.now)) }
    ensures err { IfErr result (IsWorkFailure (job_of task.now) follower_nodes) }
    ensures keeps { KeepsEntries (S.held pool.old) (S.held pool.new) }
{
    let link = link_at(alloc, task)?;
    let kept = entry_for(
        alloc,
        &task.model,
        &link,
        pool,
        follower_nodes,
        &mut scratches.follower,
    )?;
    let mut found = None;
    let Some(value) = value_at(&task.model, &task.area, Some(&kept)) else {
        let leaf = closed_without_answer(task, &found, kept)?;
        return Ok(Worked::Close { leaf, found });
    };
    match relax_fixed(alloc, task, &kept, value, &mut scratches.plain, &mut found)? {
        Relaxation::Closed(proof) => {
            let leaf = closed_with_value(alloc, task, &found, proof, kept, value)?;
            Ok(Worked::Close { leaf, found })
        }
        Relaxation::Stuck(why) => {
            let cuts = NodeCuts::inherited(alloc, task)?;
            let (kept, value, guide) = (Some(kept), Some(value), &mut scratches.guide);
            Ok(divide(alloc, task, found, why, kept, cuts, value, guide)?)
        }
    }
}

/// Works on a box that leaves a linking column free.
fn work_free<S: Source>(
    alloc: Global,
    task: &Task,
    pool: &mut S,
    follower_nodes: u32,
    scratches: &mut Scratches,
) -> Result<Worked, WorkFail>
    requires job { IsSoundJob (job_of task.now) }
    requires free { ¬ Fixes (job_of task.now).area (job_of task.now).program.links }
    requires budget { 1 ≤ follower_nodes }
    ensures ok { IfOk result (IsWorked (job_of task.now)) }
    ensures err { IfErr result (IsWorkFailure (job_of task.now) follower_nodes) }
    ensures keeps { KeepsEntries (S.held pool.old) (S.held pool.new) }
{
    let mut found = None;
    let mut cuts = NodeCuts::inherited(alloc, task)?;
    'rounds: loop {
        match cut_round(
            alloc,
            task,
            pool,
            follower_nodes,
            scratches,
            &mut found,
            &mut cuts,
        )? {
            Round::Closed(leaf) => return Ok(Worked::Close { leaf, found }),
            Round::Stuck(why) => {
                let guide = &mut scratches.guide;
                return Ok(divide(alloc, task, found, why, None, cuts, None, guide)?);
            }
            Round::Fell => {}
        }
    }
}

/// Works on a node: its box is closed by a leaf or divided with a licence. A box of one point is always closed. The
/// follower's solver may take `follower_nodes` nodes at each link. The entries that it finds are kept in the pool. The
/// scratches are room for relaxations.
pub fn work_with<S: Source>(
    alloc: Global,
    task: &Task,
    pool: &mut S,
    follower_nodes: u32,
    scratches: &mut Scratches,
) -> Result<Worked, WorkFail>
    requires job { IsJob (job_of task.now) }
    requires budget { 1 ≤ follower_nodes }
    ensures ok { IfOk result (IsWorked (job_of task.now)) }
    ensures err { IfErr result (IsWorkFailure (job_of task.now) follower_nodes) }
    ensures keeps { KeepsEntries (S.held pool.old) (S.held pool.new) }
{
    let _lo = task.area.lo();
    if task.area.fixes(task.model.links()) {
        work_fixed(alloc, task, pool, follower_nodes, scratches)
    } else {
        work_free(alloc, task, pool, follower_nodes, scratches)
    }
}

/// The same with scratches of its own.
pub fn work<S: Source>(
    alloc: Global,
    task: &Task,
    pool: &mut S,
    follower_nodes: u32,
) -> Result<Worked, WorkFail>
    requires job { IsJob (job_of task.now) }
    requires budget { 1 ≤ follower_nodes }
    ensures ok { IfOk result (IsWorked (job_of task.now)) }
    ensures err { IfErr result (IsWorkFailure (job_of task.now) follower_nodes) }
    ensures keeps { KeepsEntries (S.held pool.old) (S.held pool.new) }
{
    let mut scratches = Scratches::new(alloc);
    work_with(alloc, task, pool, follower_nodes, &mut scratches)
}
