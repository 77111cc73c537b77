//! What a last dictionary gives: a proof, a point, or a licence.
ghost use Rattle.std.specs.Prelude.{◌≡◌, ◌+◌, ◌≤◌, ℕ, false, pos, length, IfOk, IfSome, MatchOption};
ghost use Rattle.bl_limits.specs.declared.TheConstants.{MAX_PROOF_NUMBER};
ghost use Rattle.bl_terms.specs.Bounds.{Fits};
ghost use Rattle.bl_bound.specs.Plain.{IsBetterPoint};
ghost use Rattle.bl_simplex.specs.Dictionaries.{columns};
ghost use Rattle.bl_simplex.specs.Closing.{Closes, ClosesByRow, row_multiplier, cost_multiplier, PassLimit};
ghost use Rattle.bl_simplex.specs.Licences.{IsFeasible, PassesNumbers};
ghost use Rattle.bl_simplex.specs.Rationals.{common_denominator as common_of};
ghost use Rattle.bl_tableau.specs.Runs.{current};
ghost use Rattle.bl_vertex.specs.Optima.{IsOpenOptimum};
ghost use Rattle.bl_relax.specs.Relaxed.{IsRelaxed};
ghost use Rattle.bl_relax.specs.Runs.{IsRunOfSteps, IsAtEnd, IsProofOf, IsClosed};

use crate::point::{are_whole, whole_point};
use crate::relaxed::Relaxed;
use crate::repair::repair;
use crate::rounding::{Direction, rounded_point};
use bl_bound::{Problem, Proof};
use bl_frac::Frac;
use bl_licence::{
    Why, basic_values, common_denominator, cost_closes, cost_multipliers, first_closing_row,
    row_multipliers, whole_multiples,
};
use bl_point::whole_at;
use bl_raw::Listed;
use bl_tableau::Tableau;
use std::alloc::{AllocError, Global};

/// A copy of the pivots that led to the dictionary.
pub(crate) fn pivots_of(
    alloc: Global,
    tableau: &Tableau<'_, '_>,
) -> Result<Listed<(u32, u32)>, AllocError>
    ensures { IfOk result (λ ps. ps ≡ tableau.now.pivots) }
{
    Ok(Listed::new(Vec::from_slice(alloc, tableau.pivots())?))
}

/// The multipliers of a row, made whole, unless they pass the limit of proof numbers.
fn row_proof(
    alloc: Global,
    tableau: &Tableau<'_, '_>,
    row: u32,
) -> Result<Option<Proof>, AllocError>
    requires not_spent { tableau.now.spent ≡ false }
    requires closes { ClosesByRow tableau.now.problem (current tableau.now) row }
    ensures { let f = row_multiplier tableau.now.problem (current tableau.now) row in
        IfOk result (λ o. MatchOption o (PassLimit tableau.now.problem f) (IsProofOf tableau.now.problem (pos 0) f)) }
{
    let multipliers = row_multipliers(alloc, tableau, row)?;
    match whole_multiples(alloc, &multipliers)? {
        Some((_, mult)) => Ok(Some(Proof {
            den: 0,
            mult: Listed::new(mult),
        })),
        None => Ok(None),
    }
}

/// The multipliers of the cost row, made whole, unless they pass the limit of proof numbers.
fn cost_proof(alloc: Global, tableau: &Tableau<'_, '_>) -> Result<Option<Proof>, AllocError>
    requires { tableau.now.spent ≡ false }
    ensures { let q = tableau.now.problem in let f = cost_multiplier q (current tableau.now) in
        IfOk result (λ o. MatchOption o (PassLimit q f) (IsProofOf q (pos (common_of (length q.rows) f)) f)) }
{
    let multipliers = cost_multipliers(alloc, tableau)?;
    match whole_multiples(alloc, &multipliers)? {
        Some((common, mult)) => Ok(Some(Proof {
            den: common as i64,
            mult: Listed::new(mult),
        })),
        None => Ok(None),
    }
}

/// The answer of a dictionary that closes the box: its proof, or the licence of numbers that pass their limit.
fn closed(
    alloc: Global,
    tableau: &Tableau<'_, '_>,
    proof: Option<Proof>,
) -> Result<Relaxed, AllocError>
    ensures { IfOk result (IsClosed tableau.now.pivots proof) }
{
    match proof {
        Some(proof) => Ok(Relaxed::Closed(proof)),
        None => {
            let pivots = pivots_of(alloc, tableau)?;
            Ok(Relaxed::Stuck(Why::Large { pivots }))
        }
    }
}

/// A whole point near the fractional one that meets the rows below the cutoff.
fn whole_near(
    alloc: Global,
    problem: &Problem<'_>,
    cutoff: Option<i64>,
    distances: &[Frac],
) -> Result<Option<Vec<i64>>, AllocError>
    requires problem_fits { Fits problem.now }
    requires size { length distances.now ≡ length problem.now.area.lo }
    ensures { IfOk result (λ o. IfSome o (λ v. IsBetterPoint problem.now cutoff v.items)) }
{
    for direction in [
        Direction::Nearest,
        Direction::TowardStart,
        Direction::FromStart,
        Direction::AsRowsLike,
    ] {
        let point = rounded_point(alloc, problem, distances, direction)?;
        if whole_at(problem, cutoff, &point) {
            return Ok(Some(point));
        }
    }
    let mut point = rounded_point(alloc, problem, distances, Direction::Nearest)?;
    repair(alloc, problem, &mut point)?;
    if whole_at(problem, cutoff, &point) {
        return Ok(Some(point));
    }
    Ok(None)
}

/// The answer of an open optimum within the limit of proof numbers: the point itself where it is whole, a whole point
/// near it, or the licence of its fractions.
fn point_answer(
    alloc: Global,
    problem: &Problem<'_>,
    cutoff: Option<i64>,
    distances: Vec<Frac>,
) -> Result<Relaxed, AllocError>
    requires problem_fits { Fits problem.now }
    requires optimum { (pivots : _) × IsOpenOptimum problem.now cutoff pivots distances.items }
    ensures { IfOk result (IsRelaxed problem.now cutoff) }
{
    if are_whole(&distances) {
        let point = whole_point(alloc, problem, &distances)?;
        return Ok(Relaxed::Whole(Listed::new(point)));
    }
    let near = whole_near(alloc, problem, cutoff, &distances)?;
    match near {
        Some(point) => Ok(Relaxed::Whole(Listed::new(point))),
        None => Ok(Relaxed::Stuck(Why::Fraction(Listed::new(distances)))),
    }
}

/// The answer of an optimum whose numbers pass their limit: a whole point near it, or the licence of those numbers.
fn large_answer(
    alloc: Global,
    problem: &Problem<'_>,
    cutoff: Option<i64>,
    tableau: &Tableau<'_, '_>,
    distances: &[Frac],
) -> Result<Relaxed, AllocError>
    requires problem_fits { Fits problem.now }
    requires size { length distances.now ≡ length problem.now.area.lo }
    requires numbers { PassesNumbers problem.now cutoff tableau.now.pivots }
    ensures { IfOk result (IsRelaxed problem.now cutoff) }
{
    let near = whole_near(alloc, problem, cutoff, distances)?;
    match near {
        Some(point) => Ok(Relaxed::Whole(Listed::new(point))),
        None => {
            let pivots = pivots_of(alloc, tableau)?;
            Ok(Relaxed::Stuck(Why::Large { pivots }))
        }
    }
}

/// The answer of an open optimum.
fn optimum_answer(
    alloc: Global,
    problem: &Problem<'_>,
    cutoff: Option<i64>,
    tableau: &Tableau<'_, '_>,
) -> Result<Relaxed, AllocError>
    requires problem_fits { Fits problem.now }
    requires run { IsRunOfSteps problem.now cutoff tableau.now }
    requires open_box { ¬ Closes problem.now cutoff (current tableau.now) }
    requires feasible { IsFeasible problem.now (current tableau.now) }
    ensures { IfOk result (IsRelaxed problem.now cutoff) }
{
    let distances = basic_values(alloc, tableau)?;
    match common_denominator(&distances) {
        Some(_) => point_answer(alloc, problem, cutoff, distances),
        None => large_answer(alloc, problem, cutoff, tableau, &distances),
    }
}

/// The answer of a dictionary at which the pivots end.
pub(crate) fn finish(
    alloc: Global,
    problem: &Problem<'_>,
    cutoff: Option<i64>,
    tableau: &Tableau<'_, '_>,
) -> Result<Relaxed, AllocError>
    requires problem_fits { Fits problem.now }
    requires run { IsRunOfSteps problem.now cutoff tableau.now }
    requires at_end { IsAtEnd problem.now cutoff (current tableau.now) }
    ensures { IfOk result (IsRelaxed problem.now cutoff) }
{
    if let Some(row) = first_closing_row(tableau) {
        let proof = row_proof(alloc, tableau, row)?;
        return closed(alloc, tableau, proof);
    }
    if cost_closes(tableau, cutoff) {
        let proof = cost_proof(alloc, tableau)?;
        return closed(alloc, tableau, proof);
    }
    optimum_answer(alloc, problem, cutoff, tableau)
}
