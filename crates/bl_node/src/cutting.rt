//! Relaxations with cuts, at a node whose plain relaxation has a whole point with a better response.
ghost use Rattle.std.specs.Prelude.{◌≡◌, ◌≤◌, ◌⊎◌, All, IsTrue, IfOk, IfErr, IfSome, option_map};
ghost use Rattle.std.specs.Arc.{arc_value};
ghost use Rattle.bl_terms.specs.Points.{InArea};
ghost use Rattle.bl_cut_terms.specs.NoGoods.{HasBetterResponse};
ghost use Rattle.bl_leaf_terms.specs.Nodes.{IsFreeLicence};
ghost use Rattle.bl_source.specs.Sources.{KeepsEntries};
ghost use Rattle.bl_node.specs.NodeCuts.{IsTried, BreaksOne};
ghost use Rattle.bl_node.specs.Works.{IsSoundJob, job_of, IsClosing, IsWorkFailure};
ghost use Rattle.bl_node.specs.Standing.{IsFound, IsFoundAfter, cutoff_with, AreNodeCuts, IsTriedAt, StayBroken};
ghost use Rattle.bl_node.specs.CutOutcomes.{IsCutOutcome};

use crate::cuts::{NodeCuts, attempt, is_taken_away};
use crate::found::{cutoff, share};
use crate::judgement::judge;
use crate::nodes::WorkFail;
use crate::scratch::Scratches;
use bl_bound::Proof;
use bl_cut::{Cuts, Tight};
use bl_cut_proof::is_usable;
use bl_led::{Scratch, relax_led};
use bl_licence::Why;
use bl_raw::Listed;
use bl_relax::Relaxed;
use bl_source::Source;
use bl_tree::{Incumbent, Leaf, LeafFail, ProvedLeaf, Task, leaf_problem, prove_leaf};
use std::alloc::{AllocError, Global};
use std::sync::Arc;

/// What becomes of a relaxation with cuts.
#[derive(Debug, Drop)]
enum Outcome {
    Closed(ProvedLeaf),
    Whole(Listed<i64>),
    Open,
}

/// The list with the cut at a place, where that may be used in the task's box.
fn with_usable(
    alloc: Global,
    task: &Task,
    cuts: &Cuts,
    place: u32,
    usable: Cuts,
) -> Result<Cuts, AllocError>
    requires { All (λ c. c.program ≡ (job_of task.now).program) usable }
    ensures { IfOk result (All (λ c. c.program ≡ (job_of task.now).program)) }
{
    if !is_usable(&task.model, &task.area, cuts, Tight::Cut(place)) {
        return Ok(usable);
    }
    match cuts.at(place) {
        Some(cut) => usable.add(alloc, cut.clone()?),
        None => Ok(usable),
    }
}

/// Those of the cuts that may be used in the task's box.
fn usable_cuts(alloc: Global, task: &Task, cuts: &Cuts) -> Result<Cuts, AllocError>
    ensures { IfOk result (All (λ c. c.program ≡ (job_of task.now).program)) }
{
    let mut usable = Cuts::none(alloc)?;
    for place in 0..cuts.count() {
        usable = with_usable(alloc, task, cuts, place, usable)?;
    }
    Ok(usable)
}

/// The proof and the cuts without those cuts whose multiplier is 0; the multiplier of the place of the value row is 0.
fn with_used_cuts(
    alloc: Global,
    task: &Task,
    proof: Proof,
    cuts: &Cuts,
) -> Result<(Proof, Cuts), AllocError> {
    let first = task.model.rows().len() + 1;
    let multipliers = proof.mult.as_slice();
    let mut used = Cuts::none(alloc)?;
    let mut mult = Vec::from_slice(alloc, &multipliers[..multipliers.len().min(first)])?;
    if let Some(value) = mult.get_mut(first - 1) {
        *value = 0;
    }
    for place in 0..cuts.count() {
        let at = first + place as usize;
        if at < multipliers.len() && multipliers[at] != 0 {
            if let Some(cut) = cuts.at(place) {
                used = used.add(alloc, cut.clone()?)?;
                mult.push(multipliers[at])?;
            }
        }
    }
    let mult = Listed::new(mult);
    Ok((
        Proof {
            den: proof.den,
            mult,
        },
        used,
    ))
}

/// Closes the box by a proof of its problem with these cuts. It is tested as any proof of a leaf.
fn closed_with_cuts(
    alloc: Global,
    task: &Task,
    found: &Option<Arc<Incumbent, Global>>,
    proof: Proof,
    cuts: &Cuts,
) -> Result<Outcome, AllocError>
    requires { IsSoundJob (job_of task.now) }
    ensures { IfOk result (IsCutOutcome (job_of task.now) (option_map arc_value found.now)) }
{
    let (proof, cuts) = with_used_cuts(alloc, task, proof, cuts)?;
    let cutoff = share(task, found)?;
    let model = task.model.clone()?;
    let area = task.area.clone()?;
    let value_row = None;
    let leaf = Leaf::Bounded {
        proof,
        cuts,
        value_row,
    };
    match prove_leaf(alloc, model, area, cutoff, leaf) {
        Ok(leaf) => Ok(Outcome::Closed(leaf)),
        Err(LeafFail::Memory) => Err(AllocError),
        Err(_) => Ok(Outcome::Open),
    }
}

/// Relaxes the box with the cuts that may be used there.
fn relaxed_with_cuts(
    alloc: Global,
    task: &Task,
    cuts: &Cuts,
    scratch: &mut Scratch,
    found: &Option<Arc<Incumbent, Global>>,
) -> Result<Outcome, AllocError>
    requires { IsSoundJob (job_of task.now) }
    ensures { IfOk result (IsCutOutcome (job_of task.now) (option_map arc_value found.now)) }
{
    let cuts = usable_cuts(alloc, task, cuts)?;
    let zeros = vec![in alloc; 0i64; task.model.lo().len()]?;
    let problem = leaf_problem(alloc, &task.model, &task.area, None, &zeros, &cuts)?;
    match relax_led(alloc, &problem, cutoff(task, found), scratch)? {
        Relaxed::Closed(proof) => closed_with_cuts(alloc, task, found, proof, &cuts),
        Relaxed::Whole(point) => Ok(Outcome::Whole(point)),
        Relaxed::Stuck(_) => Ok(Outcome::Open),
    }
}

/// Relaxes the box with its cuts until they close it or don't help further. At each whole point with a better response
/// a further cut is made.
fn relax_cut<S: Source>(
    alloc: Global,
    task: &Task,
    pool: &mut S,
    budget: u32,
    scratches: &mut Scratches,
    found: &mut Option<Arc<Incumbent, Global>>,
    cuts: &mut NodeCuts,
) -> Result<Option<ProvedLeaf>, WorkFail>
    requires job { IsSoundJob (job_of task.now) }
    requires budget { 1 ≤ budget }
    requires found { IsFound (job_of task.now) (option_map arc_value found.old) }
    requires cuts { AreNodeCuts (job_of task.now) cuts.old.all cuts.old.made }
    ensures found { IfOk result (λ _. IsFoundAfter (job_of task.now)
        (option_map arc_value found.old) (option_map arc_value found.new)) }
    ensures cuts { IfOk result (λ _. AreNodeCuts (job_of task.now) cuts.new.all cuts.new.made) }
    ensures stay { IfOk result (λ _. StayBroken (job_of task.now) cuts.old.made cuts.new.made) }
    ensures closing { IfOk result (λ leaf. IfSome leaf (IsClosing (job_of task.now))) }
    ensures err { IfErr result (IsWorkFailure (job_of task.now) budget) }
    ensures keeps { KeepsEntries (S.held pool.old) (S.held pool.new) }
{
    'relaxations: loop {
        let point = match relaxed_with_cuts(alloc, task, &cuts.all, &mut scratches.cut, found)? {
            Outcome::Closed(leaf) => return Ok(Some(leaf)),
            Outcome::Open => return Ok(None),
            Outcome::Whole(point) => point,
        };
        let follower = &mut scratches.follower;
        let Some(response) = judge(alloc, task, point.as_slice(), pool, budget, follower, found)?
        else {
            return Ok(None);
        };
        if !attempt(alloc, task, cuts, point.as_slice(), response.as_slice())? {
            return Ok(None);
        }
    }
}

/// Takes a point with a better response away by a cut, where it breaks none yet. Whether it then breaks one.
fn take_away(
    alloc: Global,
    task: &Task,
    cuts: &mut NodeCuts,
    point: &[i64],
    response: &[i64],
) -> Result<bool, AllocError>
    requires job { IsSoundJob (job_of task.now) }
    requires cuts { AreNodeCuts (job_of task.now) cuts.old.all cuts.old.made }
    requires inside { InArea (job_of task.now).area point.now }
    requires response { HasBetterResponse (job_of task.now).program point.now response.now }
    ensures cuts { IfOk result (λ _. AreNodeCuts (job_of task.now) cuts.new.all cuts.new.made) }
    ensures tried { IfOk result (λ _. IsTriedAt (job_of task.now) cuts.new.made point.now) }
    ensures away { IfOk result (λ away. IsTrue away
        → BreaksOne (job_of task.now).program (job_of task.now).area (job_of task.now).cuts point.now
        ⊎ BreaksOne (job_of task.now).program (job_of task.now).area cuts.new.made point.now) }
{
    if is_taken_away(task, cuts, point) {
        return Ok(true);
    }
    let is_made = attempt(alloc, task, cuts, point, response)?;
    Ok(is_made)
}

/// Closes the box by cuts, if they can, where its relaxation has a point with a better response. First that point is
/// taken away.
fn cut_off<S: Source>(
    alloc: Global,
    task: &Task,
    pool: &mut S,
    budget: u32,
    scratches: &mut Scratches,
    found: &mut Option<Arc<Incumbent, Global>>,
    cuts: &mut NodeCuts,
    point: &[i64],
    response: &[i64],
) -> Result<Option<ProvedLeaf>, WorkFail>
    requires job { IsSoundJob (job_of task.now) }
    requires budget { 1 ≤ budget }
    requires found { IsFound (job_of task.now) (option_map arc_value found.old) }
    requires cuts { AreNodeCuts (job_of task.now) cuts.old.all cuts.old.made }
    requires inside { InArea (job_of task.now).area point.now }
    requires response { HasBetterResponse (job_of task.now).program point.now response.now }
    ensures found { IfOk result (λ _. IsFoundAfter (job_of task.now)
        (option_map arc_value found.old) (option_map arc_value found.new)) }
    ensures cuts { IfOk result (λ _. AreNodeCuts (job_of task.now) cuts.new.all cuts.new.made) }
    ensures tried { IfOk result (λ _. IsTriedAt (job_of task.now) cuts.new.made point.now) }
    ensures closing { IfOk result (λ leaf. IfSome leaf (IsClosing (job_of task.now))) }
    ensures err { IfErr result (IsWorkFailure (job_of task.now) budget) }
    ensures keeps { KeepsEntries (S.held pool.old) (S.held pool.new) }
{
    if !take_away(alloc, task, cuts, point, response)? {
        return Ok(None);
    }
    relax_cut(alloc, task, pool, budget, scratches, found, cuts)
}

/// Closes the box by cuts, if they can, where its licence is a better response.
pub(crate) fn cut_licensed<S: Source>(
    alloc: Global,
    task: &Task,
    pool: &mut S,
    budget: u32,
    scratches: &mut Scratches,
    found: &mut Option<Arc<Incumbent, Global>>,
    cuts: &mut NodeCuts,
    why: &Why,
) -> Result<Option<ProvedLeaf>, WorkFail>
    requires job { IsSoundJob (job_of task.now) }
    requires budget { 1 ≤ budget }
    requires found { IsFound (job_of task.now) (option_map arc_value found.old) }
    requires cuts { AreNodeCuts (job_of task.now) cuts.old.all cuts.old.made }
    requires licence { IsFreeLicence (job_of task.now).program (job_of task.now).area
        (cutoff_with (job_of task.now) (option_map arc_value found.old)) why.now }
    ensures found { IfOk result (λ _. IsFoundAfter (job_of task.now)
        (option_map arc_value found.old) (option_map arc_value found.new)) }
    ensures cuts { IfOk result (λ _. AreNodeCuts (job_of task.now) cuts.new.all cuts.new.made) }
    ensures tried { IfOk result (λ _. IsTried (job_of task.now).program (job_of task.now).area (job_of task.now).node
        (job_of task.now).cuts cuts.new.made why.now) }
    ensures closing { IfOk result (λ leaf. IfSome leaf (IsClosing (job_of task.now))) }
    ensures err { IfErr result (IsWorkFailure (job_of task.now) budget) }
    ensures keeps { KeepsEntries (S.held pool.old) (S.held pool.new) }
{
    match why {
        Why::Better { point, response } => {
            let (point, response) = (point.as_slice(), response.as_slice());
            let leaf = cut_off(
                alloc, task, pool, budget, scratches, found, cuts, point, response,
            )?;
            Ok(leaf)
        }
        _ => Ok(None),
    }
}
