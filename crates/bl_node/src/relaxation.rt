//! The relaxation of a node's plain problem.
ghost use Rattle.std.specs.Prelude.{◌≡◌, ◌≤◌, IfOk, IfErr, Some, option_map};
ghost use Rattle.std.specs.Arc.{arc_value};
ghost use Rattle.bl_terms.specs.Points.{IsOnePoint, Fixes};
ghost use Rattle.bl_terms.specs.Bounds.{Proves};
ghost use Rattle.bl_leaf_terms.specs.Nodes.{HasValue, plain_problem};
ghost use Rattle.bl_source.specs.Sources.{KeepsEntries};
ghost use Rattle.bl_node.specs.Works.{IsSoundJob, job_of, IsWorkFailure};
ghost use Rattle.bl_node.specs.Standing.{IsFound, IsFoundAfter, IsRelaxedWith, IsRelaxedFree, cutoff_with};
ghost use Rattle.bl_node.specs.Standing.{IsSmallValue};

use crate::found::{plainly_closed, relaxed, take};
use crate::judgement::judge;
use crate::nodes::WorkFail;
use crate::scratch::Scratches;
use bl_bound::Proof;
use bl_led::Scratch;
use bl_licence::Why;
use bl_pool::Kept;
use bl_relax::Relaxed;
use bl_source::Source;
use bl_tree::{Incumbent, Task};
use std::alloc::{AllocError, Global};
use std::sync::Arc;

/// What becomes of a node's relaxation.
#[derive(Debug, Drop)]
pub(crate) enum Relaxation {
    Closed(Proof),
    Stuck(Why),
}

/// Closes a box of one point. Where that point is better than the best, it becomes an incumbent first.
fn close_point(
    alloc: Global,
    task: &Task,
    kept: &Kept,
    value: i64,
    found: &mut Option<Arc<Incumbent, Global>>,
) -> Result<Proof, AllocError>
    requires job { IsSoundJob (job_of task.now) }
    requires small { IsSmallValue (Some value) }
    requires value { HasValue (job_of task.now).program (job_of task.now).area kept.now value }
    requires point { IsOnePoint (job_of task.now).area }
    requires found { IsFound (job_of task.now) (option_map arc_value found.old) }
    ensures found { IfOk result (λ _. IsFoundAfter (job_of task.now)
        (option_map arc_value found.old) (option_map arc_value found.new)) }
    ensures closed { IfOk result (λ proof. Proves
        (plain_problem (job_of task.now).program (job_of task.now).area (Some value))
        (cutoff_with (job_of task.now) (option_map arc_value found.new)) proof) }
{
    if let Some(proof) = plainly_closed(alloc, task, Some(value), found)? {
        return Ok(proof);
    }
    let point = Vec::from_slice(alloc, task.area.lo())?;
    take(alloc, task, point, kept.copy()?, found)?;
    let proof = plainly_closed(alloc, task, Some(value), found)?;
    Ok(proof.unwrap())
}

/// Relaxes a box that fixes the linking columns, with the value row, until it is closed or stuck. Each whole point on
/// the way is an incumbent.
fn relax_down(
    alloc: Global,
    task: &Task,
    kept: &Kept,
    value: i64,
    scratch: &mut Scratch,
    found: &mut Option<Arc<Incumbent, Global>>,
) -> Result<Relaxation, AllocError>
    requires job { IsSoundJob (job_of task.now) }
    requires small { IsSmallValue (Some value) }
    requires value { HasValue (job_of task.now).program (job_of task.now).area kept.now value }
    requires several { ¬ IsOnePoint (job_of task.now).area }
    requires found { IsFound (job_of task.now) (option_map arc_value found.old) }
    ensures found { IfOk result (λ _. IsFoundAfter (job_of task.now)
        (option_map arc_value found.old) (option_map arc_value found.new)) }
    ensures relaxed { IfOk result
        (IsRelaxedWith (job_of task.now) (Some value) (option_map arc_value found.new)) }
{
    'relaxations: loop {
        match relaxed(alloc, task, Some(value), found, scratch)? {
            Relaxed::Closed(proof) => return Ok(Relaxation::Closed(proof)),
            Relaxed::Stuck(why) => return Ok(Relaxation::Stuck(why)),
            Relaxed::Whole(point) => take(alloc, task, point.into_vec(), kept.copy()?, found)?,
        }
    }
}

/// Closes a box that fixes the linking columns, or gives a licence to split it.
pub(crate) fn relax_fixed(
    alloc: Global,
    task: &Task,
    kept: &Kept,
    value: i64,
    scratch: &mut Scratch,
    found: &mut Option<Arc<Incumbent, Global>>,
) -> Result<Relaxation, AllocError>
    requires job { IsSoundJob (job_of task.now) }
    requires small { IsSmallValue (Some value) }
    requires value { HasValue (job_of task.now).program (job_of task.now).area kept.now value }
    requires found { IsFound (job_of task.now) (option_map arc_value found.old) }
    ensures found { IfOk result (λ _. IsFoundAfter (job_of task.now)
        (option_map arc_value found.old) (option_map arc_value found.new)) }
    ensures relaxed { IfOk result
        (IsRelaxedWith (job_of task.now) (Some value) (option_map arc_value found.new)) }
{
    if task.area.single() {
        let proof = close_point(alloc, task, kept, value, found)?;
        return Ok(Relaxation::Closed(proof));
    }
    relax_down(alloc, task, kept, value, scratch, found)
}

/// Relaxes a box that leaves a linking column free until it is closed or stuck, or a whole point below the cutoff has a
/// better response.
pub(crate) fn relax_free<S: Source>(
    alloc: Global,
    task: &Task,
    pool: &mut S,
    budget: u32,
    scratches: &mut Scratches,
    found: &mut Option<Arc<Incumbent, Global>>,
) -> Result<Relaxation, WorkFail>
    requires job { IsSoundJob (job_of task.now) }
    requires budget { 1 ≤ budget }
    requires found { IsFound (job_of task.now) (option_map arc_value found.old) }
    ensures found { IfOk result (λ _. IsFoundAfter (job_of task.now)
        (option_map arc_value found.old) (option_map arc_value found.new)) }
    ensures relaxed { IfOk result (IsRelaxedFree (job_of task.now) (option_map arc_value found.new)) }
    ensures err { IfErr result (IsWorkFailure (job_of task.now) budget) }
    ensures keeps { KeepsEntries (S.held pool.old) (S.held pool.new) }
{
    'relaxations: loop {
        match relaxed(alloc, task, None, found, &mut scratches.plain)? {
            Relaxed::Closed(proof) => return Ok(Relaxation::Closed(proof)),
            Relaxed::Stuck(why) => return Ok(Relaxation::Stuck(why)),
            Relaxed::Whole(point) => {
                let follower = &mut scratches.follower;
                if let Some(response) = judge(
                    alloc,
                    task,
                    point.as_slice(),
                    pool,
                    budget,
                    follower,
                    found,
                )? {
                    return Ok(Relaxation::Stuck(Why::Better { point, response }));
                }
            }
        }
    }
}
