//! The problem of a node, which lends the numbers of the model, of the box and of cuts.
ghost use Rattle.std.specs.Prelude.{◌≡◌, ◌↔◌, ◌<◌, ◌≤◌, ◌^◌, ◌++◌, ℤ, length, map, IsTrue, OnOk, IfOk, All};
ghost use Rattle.std.specs.Prelude.{MatchOption};
ghost use Rattle.std.specs.Option.{option_copied};
ghost use Rattle.bl_limits.specs.declared.TheConstants.{MAX_CUTS};
ghost use Rattle.bl_whole.specs.Within.{IsWithin};
ghost use Rattle.bl_terms.specs.Points.{IsWithinArea, Fixes, zeros as zeros_of, values_at};
ghost use Rattle.bl_terms.specs.Programs.{columns, inequality, root};
ghost use Rattle.bl_terms.specs.Bounds.{Fits, IsProblem};
ghost use Rattle.bl_model.specs.View.{IsModel};
ghost use Rattle.bl_leaf_terms.specs.Nodes.{plain_problem as plain_problem_of, HasValue};
ghost use Rattle.bl_leaf_terms.specs.Leaves.{leaf_problem as leaf_problem_of};
ghost use Rattle.bl_fproof.specs.Entries.{IsAdmitted};
ghost use Rattle.bl_cut.specs.Cuts.{IsProvedCut, cut_at as cut_at_of};
ghost use Rattle.bl_tree.specs.Values.{GivesValue, GivesNoValue};
ghost use Rattle.bl_tree.specs.Closing.{rows_of};

use bl_bound::Problem;
use bl_cut::{Cuts, ProvedCut};
use bl_fproof::{Answered, Entry};
use bl_model::{BRow, Bilevel, Box2, same};
use bl_pool::Kept;
use std::alloc::{AllocError, Global};

/// Adds the rows of a model.
fn add_rows<'a>(problem: &mut Problem<'a>, rows: &'a [BRow]) -> Result<(), AllocError>
    requires { All (λ r. length r.coef ≡ length problem.old.area.lo) rows.now }
    ensures { OnOk result
        (problem.new ≡ record problem.old { rows = problem.old.rows ++ map inequality rows.now }) }
{
    for row in rows {
        problem.row(&row.coef, row.right)?;
    }
    Ok(())
}

/// The plain problem of a box: the rows of the model, and the value row after them where there is a value. No row is
/// copied.
pub fn plain_problem<'a>(
    alloc: Global,
    model: &'a Bilevel,
    area: &'a Box2,
    value: Option<i64>,
) -> Result<Problem<'a>, AllocError>
    requires within { IsWithinArea area.now (root model.now) }
    requires value { MatchOption value (Unit {0}) (IsWithin (2 ^ 62)) }
    ensures value { IfOk result (λ q. q ≡ plain_problem_of model.now area.now value) }
    ensures fits { Fits (plain_problem_of model.now area.now value) }
{
    let mut problem = Problem::start(alloc, model.cost(), area.lo(), area.hi());
    add_rows(&mut problem, model.rows())?;
    if let Some(value) = value {
        problem.row(model.follower_cost(), value)?;
    }
    Ok(problem)
}

/// The cut at a place of the list.
pub(crate) fn cut_at(cuts: &Cuts, place: u32) -> &ProvedCut
    requires { place < length cuts.now }
    ensures { result.now ≡ cut_at_of cuts.now place }
{
    match cuts.at(place) {
        Some(cut) => cut,
        None => unreachable!(),
    }
}

/// Adds the rows of cuts.
fn add_cuts<'a>(problem: &mut Problem<'a>, cuts: &'a Cuts) -> Result<(), AllocError>
    requires { All (λ c. columns c.program ≡ length problem.old.area.lo) cuts.now }
    ensures rows { OnOk result
        (problem.new ≡ record problem.old { rows = problem.old.rows ++ rows_of cuts.now }) }
    ensures proved { OnOk result (All IsProvedCut cuts.now) }
    ensures few { length cuts.now ≤ MAX_CUTS }
{
    for place in 0..cuts.count() {
        let cut = cut_at(cuts, place);
        problem.row(cut.coef(), cut.right())?;
    }
    Ok(())
}

/// The problem of a leaf: the rows of the model, the value row, or a row of zeros where there is no value, and the rows
/// of cuts. No row is copied.
pub fn leaf_problem<'a>(
    alloc: Global,
    model: &'a Bilevel,
    area: &'a Box2,
    value: Option<i64>,
    zeros: &'a [i64],
    cuts: &'a Cuts,
) -> Result<Problem<'a>, AllocError>
    requires within { IsWithinArea area.now (root model.now) }
    requires value { MatchOption value (Unit {0}) (IsWithin (2 ^ 62)) }
    requires zeros { zeros.now ≡ zeros_of (columns model.now) }
    requires cuts { All (λ c. c.program ≡ model.now) cuts.now }
    ensures value { IfOk result (λ q. q ≡ leaf_problem_of model.now area.now value (rows_of cuts.now)) }
    ensures fits { OnOk result (Fits (leaf_problem_of model.now area.now value (rows_of cuts.now))) }
    ensures proved { OnOk result (All IsProvedCut cuts.now) }
{
    let mut problem = Problem::start(alloc, model.cost(), area.lo(), area.hi());
    add_rows(&mut problem, model.rows())?;
    match value {
        Some(value) => problem.row(model.follower_cost(), value)?,
        None => problem.row(zeros, 0)?,
    }
    add_cuts(&mut problem, cuts)?;
    Ok(problem)
}

/// Whether a link has the least numbers of a box in the linking columns.
pub(crate) fn is_link_at(link: &[i64], lo: &[i64], links: &[u32]) -> bool
    requires { All (λ k. k < length lo.now) links.now }
    ensures { IsTrue result ↔ (link.now ≡ values_at lo.now links.now) }
{
    if link.len() != links.len() {
        return false;
    }
    for j in 0..links.len() {
        if link[j] != lo[links[j] as usize] {
            return false;
        }
    }
    true
}

/// The follower's least cost in a box that fixes the linking columns, where the entry is that of their link and has a
/// response.
pub fn value_at(model: &Bilevel, area: &Box2, kept: Option<&Kept>) -> Option<i64>
    requires { IsWithinArea area.now (root model.now) }
    ensures value { MatchOption result (GivesNoValue model.now area.now (option_copied kept.entry))
        (GivesValue model.now area.now (option_copied kept.entry)) }
    ensures small { MatchOption result (Unit {0}) (IsWithin (2 ^ 62)) }
    ensures admitted { MatchOption (option_copied kept.entry) (Unit {0}) IsAdmitted }
{
    match kept {
        Some(kept) => value_of(model, area, kept.entry()),
        None => None,
    }
}

/// The same, with an entry.
fn value_of(model: &Bilevel, area: &Box2, entry: &Entry) -> Option<i64>
    requires { IsWithinArea area.now (root model.now) }
    ensures value { MatchOption result ((v : ℤ) → ¬ HasValue model.now area.now entry.now v)
        (HasValue model.now area.now entry.now) }
    ensures small { MatchOption result (Unit {0}) (IsWithin (2 ^ 62)) }
    ensures admitted { IsAdmitted entry.now }
{
    let link = entry.link();
    if !area.fixes(model.links()) || !same(entry.model(), model) {
        return None;
    }
    if !is_link_at(link, area.lo(), model.links()) {
        return None;
    }
    match entry.answered() {
        Answered::Best { value, .. } => Some(*value),
        Answered::NoResponse { .. } => None,
    }
}
