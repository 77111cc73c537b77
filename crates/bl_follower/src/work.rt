//! The work on one box.
ghost use Rattle.std.specs.Prelude.{◌≡◌, ◌+◌, ◌≤◌, ◌∷◌, length, reverse, IfOk};
ghost use Rattle.bl_limits.specs.declared.TheConstants.{MAX_NUMBER};
ghost use Rattle.bl_whole.specs.Within.{AreWithin};
ghost use Rattle.bl_terms.specs.Points.{IsArea, IsOnePoint};
ghost use Rattle.bl_terms.specs.Trees.{CanSplit};
ghost use Rattle.bl_terms.specs.Bounds.{Proves, over};
ghost use Rattle.bl_fproof.specs.Stacks.{IsPart};
ghost use Rattle.bl_follower.specs.Search.{cutoff_of, IsBestSoFar, IsLowerBest, IsWorked, IsUnderWay};
ghost use Rattle.bl_follower.specs.Search.{IsSplitOrLeft, IsOneMore};

use crate::place::place_by;
use crate::response::{Response, cutoff, response_at};
use bl_bound::{Proof, plain_close};
use bl_follower_tree::GrowingTree;
use bl_fproof::{FollowerRows, Part};
use bl_led::{Scratch, relax_led};
use bl_licence::Why;
use bl_place::{Place, widest};
use bl_raw::Listed;
use bl_relax::Relaxed;
use std::alloc::{AllocError, Global};

/// What becomes of a box.
#[derive(Debug, Drop)]
pub(crate) enum Worked {
    Shut(Proof),
    Stuck(Why),
}

/// Closes a part of one point. Where that point is a better response, it becomes the best one first.
fn shut_point(
    alloc: Global,
    rows: &FollowerRows,
    part: &Part,
    best: &mut Option<Response>,
) -> Result<Proof, AllocError>
    requires part { IsPart rows.now part.now }
    requires point { IsOnePoint part.now }
    requires best { IsBestSoFar rows.now best.old }
    ensures best { IfOk result (λ _. IsLowerBest rows.now best.old best.new) }
    ensures shut { IfOk result (λ proof. Proves (over rows.now part.now) (cutoff_of best.new) proof) }
{
    let problem = rows.problem(alloc, part.lo(), part.hi())?;
    match plain_close(alloc, &problem, cutoff(best))? {
        Some(proof) => Ok(proof),
        None => {
            let point = Listed::new(Vec::from_slice(alloc, part.lo())?);
            *best = Some(response_at(&problem, point));
            let proof = plain_close(alloc, &problem, cutoff(best))?;
            Ok(proof.unwrap())
        }
    }
}

/// Relaxes a part until it is closed or stuck. Each whole point on the way is a better response and becomes the best
/// one.
fn relax_down(
    alloc: Global,
    rows: &FollowerRows,
    part: &Part,
    best: &mut Option<Response>,
    scratch: &mut Scratch,
) -> Result<Worked, AllocError>
    requires part { IsPart rows.now part.now }
    requires best { IsBestSoFar rows.now best.old }
    ensures best { IfOk result (λ _. IsLowerBest rows.now best.old best.new) }
    ensures worked { IfOk result (IsWorked rows.now part.now (cutoff_of best.new)) }
{
    let problem = rows.problem(alloc, part.lo(), part.hi())?;
    'relaxations: loop {
        match relax_led(alloc, &problem, cutoff(best), scratch)? {
            Relaxed::Closed(proof) => return Ok(Worked::Shut(proof)),
            Relaxed::Stuck(why) => return Ok(Worked::Stuck(why)),
            Relaxed::Whole(point) => *best = Some(response_at(&problem, point)),
        }
    }
}

/// Splits a stuck part at the place, or leaves it open where two more nodes would pass the budget.
fn split_or_leave(
    alloc: Global,
    budget: u32,
    part: Part,
    place: Place,
    cutoff: Option<i64>,
    why: Why,
    tree: &mut GrowingTree,
) -> Result<(), AllocError>
    requires area { IsArea part }
    requires small { AreWithin MAX_NUMBER part.hi }
    requires can_split { CanSplit part place.column place.at }
    requires within { length tree.old.nodes + length tree.old.stack + 1 ≤ budget }
    ensures { IfOk result (λ _. IsSplitOrLeft budget part place.column place.at cutoff why tree.old tree.new) }
{
    if tree.size() + 3 > budget as usize {
        return tree.leave(cutoff, why);
    }
    let halves = part
        .halves(alloc, place.column as usize, place.at)?
        .unwrap();
    tree.split(place.column, place.at, halves, cutoff, why)
}

/// Works on a part: it is shut, split, or left open.
pub(crate) fn work_on(
    alloc: Global,
    rows: &FollowerRows,
    budget: u32,
    part: Part,
    tree: &mut GrowingTree,
    best: &mut Option<Response>,
    scratch: &mut Scratch,
) -> Result<(), AllocError>
    requires { IsUnderWay rows.now budget best.old tree.old (part ∷ reverse tree.old.stack) }
    ensures { IfOk result (λ _. IsOneMore rows.now budget best.new tree.old tree.new) }
{
    let Some(widest) = widest(part.lo(), part.hi()) else {
        let proof = shut_point(alloc, rows, &part, best)?;
        tree.shut(proof)?;
        return Ok(());
    };
    match relax_down(alloc, rows, &part, best, scratch)? {
        Worked::Shut(proof) => tree.shut(proof)?,
        Worked::Stuck(why) => {
            let place = place_by(rows, &part, &why, widest);
            split_or_leave(alloc, budget, part, place, cutoff(best), why, tree)?
        }
    }
    Ok(())
}
