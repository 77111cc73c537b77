//! The division of a node's box.
ghost use Rattle.std.specs.Prelude.{◌≡◌, IfOk, IfSome, option_map};
ghost use Rattle.std.specs.Arc.{arc_value};
ghost use Rattle.bl_terms.specs.Points.{IsOnePoint, IsWithinArea};
ghost use Rattle.bl_terms.specs.Programs.{root};
ghost use Rattle.bl_terms.specs.Trees.{CanSplit};
ghost use Rattle.bl_leaf_terms.specs.Nodes.{IsLicensedBox};
ghost use Rattle.bl_node.specs.NodeCuts.{IsTried};
ghost use Rattle.bl_node.specs.Works.{IsSoundJob, job_of, IsWorked};
ghost use Rattle.bl_node.specs.Standing.{IsFound, IsSmallValue, cutoff_with, AreNodeCuts};

use crate::cuts::NodeCuts;
use crate::found::share;
use crate::nodes::Worked;
use bl_branch::Guide;
use bl_licence::Why;
use bl_model::{Bilevel, Box2, Halves};
use bl_place::{Place, can_split, fractional, widest, widest_among};
use bl_pool::Kept;
use bl_tree::{Incumbent, ProvedWhy, Task, plain_problem};
use std::alloc::{AllocError, Global};
use std::sync::Arc;

/// Where a licence asks for a split: at the floor of a fractional column, the linking ones first, or at the middle of
/// the widest linking column where the follower has a better response.
fn asked_place(model: &Bilevel, area: &Box2, why: &Why) -> Option<Place>
    requires { IsWithinArea area.now (root model.now) }
    ensures { IfSome result (λ place. CanSplit area.now place.column place.at) }
{
    match why {
        Why::Fraction(distances) => {
            let distances = distances.as_slice();
            fractional(model.cost(), area.lo(), area.hi(), distances, model.links())
        }
        Why::Better { .. } => widest_among(area.lo(), area.hi(), model.links()),
        _ => None,
    }
}

/// Where a box of several points is split: where the licence asks for it, else at the middle of its widest column.
fn place_for(model: &Bilevel, area: &Box2, why: &Why) -> Place
    requires within { IsWithinArea area.now (root model.now) }
    requires several { ¬ IsOnePoint area.now }
    ensures { CanSplit area.now result.column result.at }
{
    match asked_place(model, area, why) {
        Some(place) => place,
        None => widest(area.lo(), area.hi()).unwrap(),
    }
}

/// Where the guide would split the box, if that is a place that splits it.
fn proposed_place(
    alloc: Global,
    task: &Task,
    value: Option<i64>,
    guide: &mut Guide,
) -> Result<Option<Place>, AllocError>
    requires job { IsSoundJob (job_of task.now) }
    requires small { IsSmallValue value }
    ensures { IfOk result (λ o. IfSome o (λ place. CanSplit (job_of task.now).area place.column place.at)) }
{
    let (model, area) = (&task.model, &task.area);
    let problem = plain_problem(alloc, model, area, value)?;
    let Some(place) = guide.place(task.node, &problem, model.links())? else {
        return Ok(None);
    };
    if can_split(area.lo(), area.hi(), place.column as usize, place.at) {
        Ok(Some(place))
    } else {
        Ok(None)
    }
}

/// Where the box is split: where the guide proposes, else where the licence asks for it.
fn chosen_place(
    alloc: Global,
    task: &Task,
    why: &Why,
    value: Option<i64>,
    guide: &mut Guide,
) -> Result<Place, AllocError>
    requires job { IsSoundJob (job_of task.now) }
    requires several { ¬ IsOnePoint (job_of task.now).area }
    requires small { IsSmallValue value }
    ensures { IfOk result (λ place. CanSplit (job_of task.now).area place.column place.at) }
{
    match proposed_place(alloc, task, value, guide)? {
        Some(place) => Ok(place),
        None => Ok(place_for(&task.model, &task.area, why)),
    }
}

/// Divides the box with a licence for the cutoff of what is found. The halves inherit its cuts. The value is that of
/// the entry, for which the relaxation had a row.
pub(crate) fn divide(
    alloc: Global,
    task: &Task,
    found: Option<Arc<Incumbent, Global>>,
    why: Why,
    kept: Option<Kept>,
    cuts: NodeCuts,
    value: Option<i64>,
    guide: &mut Guide,
) -> Result<Worked, AllocError>
    requires job { IsSoundJob (job_of task.now) }
    requires several { ¬ IsOnePoint (job_of task.now).area }
    requires found { IsFound (job_of task.now) (option_map arc_value found) }
    requires licence { IsLicensedBox (job_of task.now).program (job_of task.now).area
        (cutoff_with (job_of task.now) (option_map arc_value found)) kept why }
    requires cuts { AreNodeCuts (job_of task.now) cuts.all cuts.made }
    requires tried { IsTried (job_of task.now).program (job_of task.now).area (job_of task.now).node
        (job_of task.now).cuts cuts.made why }
    requires small { IsSmallValue value }
    ensures { IfOk result (IsWorked (job_of task.now)) }
{
    let place = chosen_place(alloc, task, &why, value, guide)?;
    let halves = Halves::make(alloc, task.area.clone()?, place.column, place.at)?;
    let cutoff = share(task, &found)?;
    let model = task.model.clone()?;
    let area = task.area.clone()?;
    let why = ProvedWhy::make(model, area, cutoff, kept, why);
    let cuts = cuts.all;
    Ok(Worked::Divide {
        halves,
        why,
        cuts,
        found,
    })
}
