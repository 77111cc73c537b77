//! Rounds of relaxations at a box that leaves a linking column free.
ghost use Rattle.std.specs.Prelude.{◌≡◌, ◌≤◌, ◌↔◌, IsTrue, IfOk, IfErr, option_map};
ghost use Rattle.std.specs.Arc.{arc_value};
ghost use Rattle.bl_leaf_terms.specs.Nodes.{IsFreeLicence};
ghost use Rattle.bl_source.specs.Sources.{KeepsEntries};
ghost use Rattle.bl_node.specs.Works.{IsSoundJob, job_of, IsWorkFailure};
ghost use Rattle.bl_node.specs.Standing.{IsFound, IsFoundAfter, cutoff_with, AreNodeCuts};
ghost use Rattle.bl_node.specs.CutOutcomes.{IsRound};

use crate::cuts::NodeCuts;
use crate::cutting::cut_licensed;
use crate::found::cutoff;
use crate::leaves::closed_plainly;
use crate::nodes::WorkFail;
use crate::relaxation::{Relaxation, relax_free};
use crate::scratch::Scratches;
use bl_licence::Why;
use bl_source::Source;
use bl_tree::{Incumbent, ProvedLeaf, Task};
use std::alloc::Global;
use std::sync::Arc;

/// What becomes of a round.
#[derive(Debug, Drop)]
pub(crate) enum Round {
    Closed(ProvedLeaf),
    /// A licence for the present cutoff.
    Stuck(Why),
    /// The cutoff fell since the licence was had.
    Fell,
}

/// Whether two cutoffs are the same.
fn is_same_cutoff(one: Option<i64>, other: Option<i64>) -> bool
    ensures { IsTrue result ↔ (one ≡ other) }
{
    match (one, other) {
        (Some(one), Some(other)) => one == other,
        (None, None) => true,
        _ => false,
    }
}

/// Tries cuts where the licence is a better response.
fn after_licence<S: Source>(
    alloc: Global,
    task: &Task,
    pool: &mut S,
    budget: u32,
    scratches: &mut Scratches,
    found: &mut Option<Arc<Incumbent, Global>>,
    cuts: &mut NodeCuts,
    why: Why,
) -> Result<Round, WorkFail>
    requires job { IsSoundJob (job_of task.now) }
    requires budget { 1 ≤ budget }
    requires found { IsFound (job_of task.now) (option_map arc_value found.old) }
    requires cuts { AreNodeCuts (job_of task.now) cuts.old.all cuts.old.made }
    requires licence { IsFreeLicence (job_of task.now).program (job_of task.now).area
        (cutoff_with (job_of task.now) (option_map arc_value found.old)) why }
    ensures found { IfOk result (λ _. IsFoundAfter (job_of task.now)
        (option_map arc_value found.old) (option_map arc_value found.new)) }
    ensures cuts { IfOk result (λ _. AreNodeCuts (job_of task.now) cuts.new.all cuts.new.made) }
    ensures round { IfOk result (IsRound (job_of task.now)
        (option_map arc_value found.old) (option_map arc_value found.new) cuts.new.made) }
    ensures err { IfErr result (IsWorkFailure (job_of task.now) budget) }
    ensures keeps { KeepsEntries (S.held pool.old) (S.held pool.new) }
{
    let before = cutoff(task, found);
    if let Some(leaf) = cut_licensed(alloc, task, pool, budget, scratches, found, cuts, &why)? {
        return Ok(Round::Closed(leaf));
    }
    if !is_same_cutoff(before, cutoff(task, found)) {
        return Ok(Round::Fell);
    }
    Ok(Round::Stuck(why))
}

/// Relaxes the box, and tries cuts where a whole point below the cutoff has a better response.
pub(crate) fn cut_round<S: Source>(
    alloc: Global,
    task: &Task,
    pool: &mut S,
    budget: u32,
    scratches: &mut Scratches,
    found: &mut Option<Arc<Incumbent, Global>>,
    cuts: &mut NodeCuts,
) -> Result<Round, WorkFail>
    requires job { IsSoundJob (job_of task.now) }
    requires budget { 1 ≤ budget }
    requires found { IsFound (job_of task.now) (option_map arc_value found.old) }
    requires cuts { AreNodeCuts (job_of task.now) cuts.old.all cuts.old.made }
    ensures found { IfOk result (λ _. IsFoundAfter (job_of task.now)
        (option_map arc_value found.old) (option_map arc_value found.new)) }
    ensures cuts { IfOk result (λ _. AreNodeCuts (job_of task.now) cuts.new.all cuts.new.made) }
    ensures round { IfOk result (IsRound (job_of task.now)
        (option_map arc_value found.old) (option_map arc_value found.new) cuts.new.made) }
    ensures err { IfErr result (IsWorkFailure (job_of task.now) budget) }
    ensures keeps { KeepsEntries (S.held pool.old) (S.held pool.new) }
{
    match relax_free(alloc, task, pool, budget, scratches, found)? {
        Relaxation::Closed(proof) => {
            let leaf = closed_plainly(alloc, task, found, proof)?;
            Ok(Round::Closed(leaf))
        }
        Relaxation::Stuck(why) => {
            let round = after_licence(alloc, task, pool, budget, scratches, found, cuts, why)?;
            Ok(round)
        }
    }
}
