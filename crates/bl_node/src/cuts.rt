//! The cuts of a node: those that its box inherits, and those that are made there.
ghost use Rattle.std.specs.Prelude.{◌≡◌, ◌<◌, ◌↔◌, ◌⊎◌, ℕ, length, [], IsTrue, IfOk, IfErr, OnOk};
ghost use Rattle.std.specs.Arc.{arc_value};
ghost use Rattle.bl_limits.specs.declared.TheConstants.{MAX_NEW_CUTS, CUT_NODES};
ghost use Rattle.bl_terms.specs.Points.{InArea, IsWithinArea};
ghost use Rattle.bl_terms.specs.Programs.{InBox, root};
ghost use Rattle.bl_cut_terms.specs.NoGoods.{HasBetterResponse};
ghost use Rattle.bl_cut.specs.Cuts.{with_cut, cut_at};
ghost use Rattle.bl_node.specs.NodeCuts.{BreaksAt, BreaksOne};
ghost use Rattle.bl_node.specs.Works.{IsSoundJob, job_of};
ghost use Rattle.bl_node.specs.Standing.{AreNodeCuts, IsAttempt};

use bl_cut::{Cuts, ProvedCut};
use bl_limits::{CUT_NODES, MAX_NEW_CUTS};
use bl_model::{Bilevel, Box2, same};
use bl_nogood::{NoCut, make_cut};
use bl_tree::Task;
use std::alloc::{AllocError, Global};
use std::sync::Arc;

/// Whether a cut is of the model; `is_known` tells whether that is known already.
fn is_of(model: &Bilevel, cut: &ProvedCut, is_known: bool) -> bool
    requires { IsTrue is_known → cut.now.program ≡ model.now }
    ensures { IsTrue result ↔ (cut.now.program ≡ model.now) }
{
    is_known || same(cut.model(), model)
}

/// Whether the point breaks the cut at a place, and the cut may be used in the box. `is_known` tells whether the cut is
/// known to be of the model.
fn breaks_at(
    model: &Bilevel,
    area: &Box2,
    cuts: &Cuts,
    is_known: bool,
    place: u32,
    point: &[i64],
) -> bool
    requires inside { InBox model.now point.now }
    requires known { IsTrue is_known → place < length cuts.now → (cut_at cuts.now place).program ≡ model.now }
    ensures { IsTrue result ↔ BreaksAt model.now area.now cuts.now point.now place }
{
    match cuts.at(place) {
        Some(cut) => { is_of(model, cut, is_known) && area.within(cut.area()) && cut.breaks(point) }
        None => false,
    }
}

/// Whether the point breaks one of the cuts that may be used in the box.
fn breaks_one(model: &Bilevel, area: &Box2, cuts: &Cuts, point: &[i64]) -> bool
    requires { InBox model.now point.now }
    ensures { IsTrue result ↔ BreaksOne model.now area.now cuts.now point.now }
{
    let are_known = cuts.are_of(model);
    for place in 0..cuts.count() {
        if breaks_at(model, area, cuts, are_known, place, point) {
            return true;
        }
    }
    false
}

/// The cuts that the halves of a box will inherit, and of these the ones that were made at the node.
#[derive(Debug, Drop)]
pub(crate) struct NodeCuts {
    pub(crate) all: Cuts,
    pub(crate) made: Cuts,
}

impl NodeCuts {
    /// The cuts that the box inherits.
    pub(crate) fn inherited(alloc: Global, task: &Task) -> Result<NodeCuts, AllocError>
        ensures cuts { IfOk result (λ cuts. AreNodeCuts (job_of task.now) cuts.all cuts.made) }
        ensures none { IfOk result (λ cuts. cuts.made ≡ []) }
    {
        let all = task.cuts.copy()?;
        let made = Cuts::none(alloc)?;
        Ok(NodeCuts { all, made })
    }

    /// Whether a further cut may be made at the node.
    fn has_room(&self, task: &Task) -> bool
        ensures { IsTrue result ↔ (((job_of task.now).node < CUT_NODES) × (length self.now.made < MAX_NEW_CUTS)) }
    {
        task.node < CUT_NODES && self.made.count() < MAX_NEW_CUTS
    }

    /// Adds a cut that was made at the node.
    fn add(&mut self, alloc: Global, cut: ProvedCut) -> Result<(), AllocError>
        ensures { OnOk result (self.new ≡ record {
          all = with_cut self.old.all cut;
          made = with_cut self.old.made cut;
        }) }
    {
        let cut = Arc::new(alloc, cut)?;
        self.made = self.made.add(alloc, cut.clone()?)?;
        self.all = self.all.add(alloc, cut)?;
        Ok(())
    }
}

/// Whether the point breaks a cut that the box inherits or that was made at the node.
pub(crate) fn is_taken_away(task: &Task, cuts: &NodeCuts, point: &[i64]) -> bool
    requires { InBox (job_of task.now).program point.now }
    ensures { IsTrue result ↔
        (BreaksOne (job_of task.now).program (job_of task.now).area (job_of task.now).cuts point.now
        ⊎ BreaksOne (job_of task.now).program (job_of task.now).area cuts.now.made point.now) }
{
    breaks_one(&task.model, &task.area, &task.cuts, point)
        || breaks_one(&task.model, &task.area, &cuts.made, point)
}

/// Makes a cut at a point with a better response, where the elimination gives one. Whether it is made.
fn make_at(
    alloc: Global,
    task: &Task,
    cuts: &mut NodeCuts,
    point: &[i64],
    response: &[i64],
) -> Result<bool, AllocError>
    requires job { IsSoundJob (job_of task.now) }
    requires cuts { AreNodeCuts (job_of task.now) cuts.old.all cuts.old.made }
    requires inside { InArea (job_of task.now).area point.now }
    requires response { HasBetterResponse (job_of task.now).program point.now response.now }
    requires node { (job_of task.now).node < CUT_NODES }
    requires room { length cuts.old.made < MAX_NEW_CUTS }
    requires fresh { ¬ BreaksOne (job_of task.now).program (job_of task.now).area cuts.old.made point.now }
    ensures cuts { IfOk result (λ _. AreNodeCuts (job_of task.now) cuts.new.all cuts.new.made) }
    ensures attempt { IfOk result (IsAttempt (job_of task.now) cuts.old.made cuts.new.made point.now) }
{
    let model = task.model.clone()?;
    let area = task.area.clone()?;
    match make_cut(alloc, model, area, cuts.all.copy()?, point, response) {
        Ok(cut) => {
            cuts.add(alloc, cut)?;
            Ok(true)
        }
        Err(NoCut::NotUnique { .. }) => Ok(false),
        Err(NoCut::TooLarge { .. }) => Ok(false),
        Err(NoCut::NotBetter { .. }) => unreachable!(),
        Err(NoCut::Memory) => Err(AllocError),
    }
}

/// Makes a cut at a point with a better response, where one more may be made. Whether it is made.
pub(crate) fn attempt(
    alloc: Global,
    task: &Task,
    cuts: &mut NodeCuts,
    point: &[i64],
    response: &[i64],
) -> Result<bool, AllocError>
    requires job { IsSoundJob (job_of task.now) }
    requires cuts { AreNodeCuts (job_of task.now) cuts.old.all cuts.old.made }
    requires inside { InArea (job_of task.now).area point.now }
    requires response { HasBetterResponse (job_of task.now).program point.now response.now }
    ensures cuts { IfOk result (λ _. AreNodeCuts (job_of task.now) cuts.new.all cuts.new.made) }
    ensures attempt { IfOk result (IsAttempt (job_of task.now) cuts.old.made cuts.new.made point.now) }
{
    if !cuts.has_room(task) || breaks_one(&task.model, &task.area, &cuts.made, point) {
        return Ok(false);
    }
    make_at(alloc, task, cuts, point, response)
}
