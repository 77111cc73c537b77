//! The tests that replay a list of pivots.
ghost use Rattle.std.specs.Prelude.{◌≡◌, ◌↔◌, ℕ, ◌+◌, ◌<◌, ◌≤◌, ◌∷◌, [], ◌++◌, false, true, IsTrue, IfOk, length};
ghost use Rattle.bl_terms.specs.Bounds.{Fits};
ghost use Rattle.bl_simplex.specs.Dictionaries.{columns, cost_row};
ghost use Rattle.bl_simplex.specs.Pivots.{FailsFirstAt};
ghost use Rattle.bl_simplex.specs.Closing.{Closes};
ghost use Rattle.bl_simplex.specs.LegalPivots.{IsLegal};
ghost use Rattle.bl_simplex.specs.Licences.{IsStep, AreSteps, PassesWidth, PassesPivots, PassesNumbers};
ghost use Rattle.bl_simplex.specs.Licences.{ClosesPastLimit, IsPointPastLimit, pivot_limit as pivot_limit_of};
ghost use Rattle.bl_tableau.specs.Runs.{current};
ghost use Rattle.bl_licence.specs.Steps.{MayPivot, Took, EndsInWidth};

use crate::closing::{closes, cost_closes, first_closing_row};
use crate::common::{common_denominator, pass_limit};
use crate::vertex::{basic_values, cost_multipliers, is_feasible, row_multipliers};
use bl_bound::Problem;
use bl_limits::{PIVOTS_AT_LEAST, PIVOTS_PER_LINE};
use bl_tableau::Tableau;
use std::alloc::{AllocError, Global};

/// The pivots that a relaxation of the problem may take.
pub fn pivot_limit(problem: &Problem<'_>) -> u32
    requires { Fits problem.now }
    ensures { result ≡ pivot_limit_of problem.now }
{
    let lines = (problem.rows().len() + problem.lo().len()) as u32;
    PIVOTS_AT_LEAST + PIVOTS_PER_LINE * lines
}

/// The opening dictionary with room for so many pivots. There is no memory for more than a `u32` counts.
fn opening<'p, 'a>(
    alloc: Global,
    problem: &'p Problem<'a>,
    pivots: usize,
) -> Result<Tableau<'p, 'a>, AllocError>
    requires { Fits problem.now }
    ensures { IfOk result (λ t. t ≡ record { problem = problem.now; most = pivots; pivots = []; spent = false }) }
{
    let Ok(most) = u32::try_from(pivots) else {
        return Err(AllocError);
    };
    Tableau::start(alloc, problem, most)
}

/// Whether the dictionary doesn't close the box and the pivot is a legal one of it.
pub fn may_pivot(tableau: &Tableau<'_, '_>, cutoff: Option<i64>, pivot: (u32, u32)) -> bool
    requires { tableau.now.spent ≡ false }
    ensures { IsTrue result ↔ MayPivot tableau.now.problem cutoff (current tableau.now) pivot }
{
    pivot.0 < tableau.cost_row()
        && pivot.1 < tableau.columns()
        && tableau.is_legal(pivot.0, pivot.1)
        && !closes(tableau, cutoff)
}

/// Takes a pivot that is legal where the dictionary doesn't close the box, unless it passes 128 bits.
fn take_step(tableau: &mut Tableau<'_, '_>, cutoff: Option<i64>, pivot: (u32, u32)) -> bool
    requires not_spent { tableau.old.spent ≡ false }
    requires room { length tableau.old.pivots < tableau.old.most }
    ensures step { IsTrue result ↔ IsStep tableau.old.problem cutoff (current tableau.old) pivot }
    ensures taken { result ≡ true → tableau.new ≡ record tableau.old { pivots = tableau.old.pivots ++ pivot ∷ [] } }
{
    may_pivot(tableau, cutoff, pivot) && tableau.pivot(pivot.0, pivot.1).is_ok()
}

/// Takes the pivots one after the other as long as each may be taken, and answers whether all could.
fn take_steps(tableau: &mut Tableau<'_, '_>, cutoff: Option<i64>, pivots: &[(u32, u32)]) -> bool
    requires not_spent { tableau.old.spent ≡ false }
    requires room { length tableau.old.pivots + length pivots.now ≤ tableau.old.most }
    ensures steps { IsTrue result ↔ AreSteps tableau.old.problem cutoff (current tableau.old) pivots.now }
    ensures taken { IsTrue result → Took tableau.old pivots.now tableau.new }
{
    for k in 0..pivots.len() {
        let pivot = pivots[k];
        if !take_step(tableau, cutoff, pivot) {
            return false;
        }
    }
    true
}

/// Whether a legal pivot passes 128 bits, first at this place.
fn is_wide_at(tableau: &mut Tableau<'_, '_>, pivot: (u32, u32), row: u32, column: u32) -> bool
    requires not_spent { tableau.old.spent ≡ false }
    requires room { length tableau.old.pivots < tableau.old.most }
    requires legal { IsLegal tableau.old.problem (current tableau.old) pivot.0 pivot.1 }
    ensures { IsTrue result ↔ FailsFirstAt tableau.old.problem (current tableau.old) pivot.0 pivot.1 row column }
{
    match tableau.pivot(pivot.0, pivot.1) {
        Ok(()) => false,
        Err(wide) => wide.row == row && wide.column == column,
    }
}

/// Whether the first pivots are steps, and the last one is legal and passes 128 bits first at this place.
fn ends_wide(
    tableau: &mut Tableau<'_, '_>,
    cutoff: Option<i64>,
    front: &[(u32, u32)],
    last: (u32, u32),
    row: u32,
    column: u32,
) -> bool
    requires not_spent { tableau.old.spent ≡ false }
    requires opening { tableau.old.pivots ≡ [] }
    requires room { length front.now < tableau.old.most }
    ensures { IsTrue result ↔ EndsInWidth tableau.old.problem cutoff front.now last row column }
{
    if !take_steps(tableau, cutoff, front) {
        return false;
    }
    if !may_pivot(tableau, cutoff, last) {
        return false;
    }
    is_wide_at(tableau, last, row, column)
}

/// Whether the pivots pass 128 bits, by the last one and first at this place.
pub(crate) fn passes_width(
    alloc: Global,
    problem: &Problem<'_>,
    cutoff: Option<i64>,
    pivots: &[(u32, u32)],
    row: u32,
    column: u32,
) -> Result<bool, AllocError>
    requires { Fits problem.now }
    ensures { IfOk result (λ b. IsTrue b ↔ PassesWidth problem.now cutoff pivots.now row column) }
{
    let count = pivots.len();
    if count == 0 {
        return Ok(false);
    }
    let last = pivots[count - 1];
    let front = &pivots[..count - 1];
    let mut tableau = opening(alloc, problem, count)?;
    Ok(ends_wide(&mut tableau, cutoff, front, last, row, column))
}

/// Whether the pivots are as many steps as the limit allows, and none of their dictionaries closes the box.
pub(crate) fn passes_pivots(
    alloc: Global,
    problem: &Problem<'_>,
    cutoff: Option<i64>,
    pivots: &[(u32, u32)],
) -> Result<bool, AllocError>
    requires { Fits problem.now }
    ensures { IfOk result (λ b. IsTrue b ↔ PassesPivots problem.now cutoff pivots.now) }
{
    if pivots.len() != pivot_limit(problem) as usize {
        return Ok(false);
    }
    let mut tableau = opening(alloc, problem, pivots.len())?;
    if !take_steps(&mut tableau, cutoff, pivots) {
        return Ok(false);
    }
    Ok(!closes(&tableau, cutoff))
}

/// Whether the numbers of the proof that the dictionary gives pass their limit.
pub fn closes_past_limit(
    alloc: Global,
    tableau: &Tableau<'_, '_>,
    cutoff: Option<i64>,
) -> Result<bool, AllocError>
    requires { tableau.now.spent ≡ false }
    ensures { IfOk result (λ b. IsTrue b ↔ ClosesPastLimit tableau.now.problem cutoff (current tableau.now)) }
{
    if let Some(row) = first_closing_row(tableau) {
        let multipliers = row_multipliers(alloc, tableau, row)?;
        let past = pass_limit(alloc, &multipliers)?;
        return Ok(past);
    }
    if !cost_closes(tableau, cutoff) {
        return Ok(false);
    }
    let multipliers = cost_multipliers(alloc, tableau)?;
    let past = pass_limit(alloc, &multipliers)?;
    Ok(past)
}

/// Whether the dictionary is an optimum that doesn't close the box, and its point's numbers pass their limit.
pub fn is_point_past_limit(
    alloc: Global,
    tableau: &Tableau<'_, '_>,
    cutoff: Option<i64>,
) -> Result<bool, AllocError>
    requires { tableau.now.spent ≡ false }
    ensures { IfOk result (λ b. IsTrue b ↔ IsPointPastLimit tableau.now.problem cutoff (current tableau.now)) }
{
    if closes(tableau, cutoff) || !is_feasible(tableau) {
        return Ok(false);
    }
    let values = basic_values(alloc, tableau)?;
    match common_denominator(&values) {
        Some(_) => Ok(false),
        None => Ok(true),
    }
}

/// Whether the pivots are steps to a dictionary whose proof or point has numbers past their limit.
pub(crate) fn passes_numbers(
    alloc: Global,
    problem: &Problem<'_>,
    cutoff: Option<i64>,
    pivots: &[(u32, u32)],
) -> Result<bool, AllocError>
    requires { Fits problem.now }
    ensures { IfOk result (λ b. IsTrue b ↔ PassesNumbers problem.now cutoff pivots.now) }
{
    let mut tableau = opening(alloc, problem, pivots.len())?;
    if !take_steps(&mut tableau, cutoff, pivots) {
        return Ok(false);
    }
    let closing = closes_past_limit(alloc, &tableau, cutoff)?;
    if closing {
        return Ok(true);
    }
    let past = is_point_past_limit(alloc, &tableau, cutoff)?;
    Ok(past)
}
