//! Whole points of a box that leaves a linking column free, judged by the entries of their links.
ghost use Rattle.std.specs.Prelude.{◌≡◌, ◌≤◌, IfOk, IfErr, OnOk, option_map};
ghost use Rattle.std.specs.Arc.{arc_value};
ghost use Rattle.bl_terms.specs.Points.{InArea};
ghost use Rattle.bl_terms.specs.Programs.{MeetsRows, cost_at, link_of};
ghost use Rattle.bl_bound.specs.Plain.{CostsLess};
ghost use Rattle.bl_leaf_terms.specs.Incumbents.{IsEntryFor};
ghost use Rattle.bl_source.specs.Sources.{KeepsEntries};
ghost use Rattle.bl_node.specs.Works.{IsSoundJob, job_of, IsWorkFailure};
ghost use Rattle.bl_node.specs.Standing.{IsFound, IsFoundAfter, IsJudged, cutoff_with};

use crate::found::{cutoff, enter, is_below, take};
use crate::nodes::WorkFail;
use bl_fproof::Answered;
use bl_led::Scratch;
use bl_model::{Bilevel, Listed};
use bl_pool::Kept;
use bl_source::{Source, entry_for};
use bl_tree::{Incumbent, ShowFail, Task, show};
use std::alloc::{AllocError, Global};
use std::sync::Arc;

/// A point with other numbers in the follower's columns.
fn with_response(
    alloc: Global,
    model: &Bilevel,
    point: &[i64],
    response: &[i64],
) -> Result<Vec<i64>, AllocError> {
    let mut moved = Vec::from_slice(alloc, point)?;
    let columns = model.follower();
    for j in 0..columns.len().min(response.len()) {
        let column = columns[j] as usize;
        if column < moved.len() {
            moved[column] = response[j];
        }
    }
    Ok(moved)
}

/// Takes a point as the incumbent where the entry shows it and it costs the leader less than the best.
fn try_point(
    alloc: Global,
    task: &Task,
    point: Vec<i64>,
    kept: Kept,
    found: &mut Option<Arc<Incumbent, Global>>,
) -> Result<(), AllocError>
    requires job { IsSoundJob (job_of task.now) }
    requires found { IsFound (job_of task.now) (option_map arc_value found.old) }
    ensures { OnOk result (IsFoundAfter (job_of task.now)
        (option_map arc_value found.old) (option_map arc_value found.new)) }
{
    match show(alloc, task.model.clone()?, point, kept) {
        Ok(incumbent) => enter(alloc, task, incumbent, found),
        Err(ShowFail::Memory) => Err(AllocError),
        Err(_) => Ok(()),
    }
}

/// Judges a whole point of the box that meets the rows below the cutoff, by the entry of its link. Where the follower
/// has no better response, it becomes the incumbent. Else the point with that response does, if it may, and the
/// response is answered where the point still is below the cutoff.
fn judge_by(
    alloc: Global,
    task: &Task,
    point: &[i64],
    kept: &Kept,
    found: &mut Option<Arc<Incumbent, Global>>,
) -> Result<Option<Listed<i64>>, AllocError>
    requires job { IsSoundJob (job_of task.now) }
    requires found { IsFound (job_of task.now) (option_map arc_value found.old) }
    requires inside { InArea (job_of task.now).area point.now }
    requires rows { MeetsRows (job_of task.now).program point.now }
    requires below { CostsLess (cutoff_with (job_of task.now) (option_map arc_value found.old))
        (cost_at (job_of task.now).program point.now) }
    requires entry { IsEntryFor (job_of task.now).program (link_of (job_of task.now).program point.now) kept.now }
    ensures found { IfOk result (λ _. IsFoundAfter (job_of task.now)
        (option_map arc_value found.old) (option_map arc_value found.new)) }
    ensures judged { IfOk result (IsJudged (job_of task.now) (option_map arc_value found.new) point.now) }
{
    let Answered::Best {
        response,
        value,
        ..
    } = kept.entry().answered()
    else {
        unreachable!()
    };
    let cost = task.model.cost_of(point);
    if task.model.follower_of(point) <= *value {
        let point = Vec::from_slice(alloc, point)?;
        take(alloc, task, point, kept.copy()?, found)?;
        return Ok(None);
    }
    let moved = with_response(alloc, &task.model, point, response.as_slice())?;
    try_point(alloc, task, moved, kept.copy()?, found)?;
    if !is_below(cost, cutoff(task, found)) {
        return Ok(None);
    }
    let response = Vec::from_slice(alloc, response.as_slice())?;
    Ok(Some(Listed::new(response)))
}

/// Judges a whole point of the box that meets the rows below the cutoff.
pub(crate) fn judge<S: Source>(
    alloc: Global,
    task: &Task,
    point: &[i64],
    pool: &mut S,
    budget: u32,
    scratch: &mut Scratch,
    found: &mut Option<Arc<Incumbent, Global>>,
) -> Result<Option<Listed<i64>>, WorkFail>
    requires job { IsSoundJob (job_of task.now) }
    requires budget { 1 ≤ budget }
    requires found { IsFound (job_of task.now) (option_map arc_value found.old) }
    requires inside { InArea (job_of task.now).area point.now }
    requires rows { MeetsRows (job_of task.now).program point.now }
    requires below { CostsLess (cutoff_with (job_of task.now) (option_map arc_value found.old))
        (cost_at (job_of task.now).program point.now) }
    ensures found { IfOk result (λ _. IsFoundAfter (job_of task.now)
        (option_map arc_value found.old) (option_map arc_value found.new)) }
    ensures judged { IfOk result (IsJudged (job_of task.now) (option_map arc_value found.new) point.now) }
    ensures err { IfErr result (IsWorkFailure (job_of task.now) budget) }
    ensures keeps { KeepsEntries (S.held pool.old) (S.held pool.new) }
{
    let link = task.model.link_of(alloc, point)?;
    let kept = entry_for(alloc, &task.model, &link, pool, budget, scratch)?;
    Ok(judge_by(alloc, task, point, &kept, found)?)
}
