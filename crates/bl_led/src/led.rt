//! The relaxation: what a search in doubles finds and an exact test shows, else the exact relaxation.
ghost use Rattle.std.specs.Prelude.{IfOk, IfSome};
ghost use Rattle.bl_terms.specs.Bounds.{Fits};
ghost use Rattle.bl_relax.specs.Relaxed.{IsRelaxed};

use crate::closing::{cutoff_proof, empty_proof};
use crate::fraction::{Grid, fine_licence, licence_on, simplest_licence};
use crate::repair::Repair;
use crate::rounding::whole_near;
use bl_bound::Problem;
use bl_float::{End, FloatSimplex};
use bl_relax::{Relaxed, relax};
use std::alloc::{AllocError, Global};
use std::num::nearest_i64_to_f64;

/// A problem with fewer numbers is relaxed exactly at once: its columns times its rows and columns.
const SMALL: usize = 200;

/// By how much a cost in doubles may be below the greatest one that is sought and yet reach the cutoff.
const CUTOFF_TOLERANCE: f64 = 1e-6;

/// The grids to which a point is rounded whose fractions aren't simple, coarsest first.
const GRIDS: [Grid; 3] = [
    Grid {
        halvings: 20,
        parts: 1_048_576.0,
    },
    Grid {
        halvings: 30,
        parts: 1_073_741_824.0,
    },
    Grid {
        halvings: 40,
        parts: 1_099_511_627_776.0,
    },
];

/// What is kept from relaxation to relaxation: the float simplex, which goes on from its last dictionary where the rows
/// and costs stay the same, and room. No answer depends on it but by which one is found.
#[derive(Debug, Drop)]
pub struct Scratch {
    simplex: FloatSimplex,
    point: Vec<i64>,
    repair: Repair,
}

impl Scratch {
    /// A scratch value that has seen no problem. Takes no memory.
    pub fn new(alloc: Global) -> Scratch {
        Scratch {
            simplex: FloatSimplex::new(alloc),
            point: Vec::new(alloc),
            repair: Repair::new(alloc),
        }
    }
}

fn is_small(problem: &Problem<'_>) -> bool {
    let columns = problem.lo().len();
    let lines = problem.rows().len().saturating_add(columns);
    columns.saturating_mul(lines) < SMALL
}

/// Whether a cost in doubles may reach the cutoff.
fn reaches(cost: f64, cutoff: Option<i64>) -> bool {
    match cutoff {
        Some(cutoff) => { cost > nearest_i64_to_f64(cutoff.saturating_sub(1)) - CUTOFF_TOLERANCE }
        None => false,
    }
}

/// What an optimum in doubles leads to: a proof that the cutoff is reached, a whole point, or a licence to split.
fn at_optimum(
    alloc: Global,
    problem: &Problem<'_>,
    cutoff: Option<i64>,
    scratch: &mut Scratch,
) -> Result<Option<Relaxed>, AllocError>
    requires { Fits problem.now }
    ensures { IfOk result (λ o. IfSome o (IsRelaxed problem.now cutoff)) }
{
    if reaches(scratch.simplex.cost(), cutoff) {
        let closed = cutoff_proof(alloc, problem, cutoff, scratch.simplex.multipliers())?;
        if closed.is_some() {
            return Ok(closed);
        }
    }
    let values = scratch.simplex.point();
    let room = &mut scratch.point;
    let whole = whole_near(alloc, problem, cutoff, values, room, &mut scratch.repair)?;
    if whole.is_some() {
        return Ok(whole);
    }
    let stuck = simplest_licence(alloc, problem, cutoff, values)?;
    if stuck.is_some() {
        return Ok(stuck);
    }
    let stuck = grid_licence(alloc, problem, cutoff, scratch)?;
    if stuck.is_some() {
        return Ok(stuck);
    }
    refined_licence(alloc, problem, cutoff, scratch)
}

/// A licence to split of the vertex itself, where the fractions of its refined point are simple.
fn refined_licence(
    alloc: Global,
    problem: &Problem<'_>,
    cutoff: Option<i64>,
    scratch: &mut Scratch,
) -> Result<Option<Relaxed>, AllocError>
    requires { Fits problem.now }
    ensures { IfOk result (λ o. IfSome o (IsRelaxed problem.now cutoff)) }
{
    let end = scratch.simplex.solve(problem, cutoff)?;
    if end == End::Optimal && scratch.simplex.refine(problem)? {
        return fine_licence(alloc, problem, cutoff, scratch.simplex.fine_point());
    }
    Ok(None)
}

/// A licence to split of a point on a grid: that of least cost so far within the rows that rounding leaves them met.
fn grid_licence(
    alloc: Global,
    problem: &Problem<'_>,
    cutoff: Option<i64>,
    scratch: &mut Scratch,
) -> Result<Option<Relaxed>, AllocError>
    requires { Fits problem.now }
    ensures { IfOk result (λ o. IfSome o (IsRelaxed problem.now cutoff)) }
{
    for grid in GRIDS {
        let end = scratch
            .simplex
            .solve_inside(problem, cutoff, 1.0 / grid.parts)?;
        if end == End::Optimal {
            let values = scratch.simplex.point();
            let stuck = licence_on(alloc, problem, cutoff, values, grid)?;
            if stuck.is_some() {
                return Ok(stuck);
            }
        }
    }
    Ok(None)
}

/// What the search in doubles finds and an exact test shows. The search stops above the limit, where there is one.
fn led(
    alloc: Global,
    problem: &Problem<'_>,
    cutoff: Option<i64>,
    limit: Option<i64>,
    scratch: &mut Scratch,
) -> Result<Option<Relaxed>, AllocError>
    requires { Fits problem.now }
    ensures { IfOk result (λ o. IfSome o (IsRelaxed problem.now cutoff)) }
{
    match scratch.simplex.solve(problem, limit)? {
        End::Infeasible => empty_proof(alloc, problem, cutoff, scratch.simplex.multipliers()),
        End::AboveCutoff => cutoff_proof(alloc, problem, cutoff, scratch.simplex.multipliers()),
        End::Optimal => at_optimum(alloc, problem, cutoff, scratch),
        End::Tired | End::Broken => Ok(None),
    }
}

/// What the search in doubles finds from the last dictionary, or else from the opening one and up to the optimum.
fn led_twice(
    alloc: Global,
    problem: &Problem<'_>,
    cutoff: Option<i64>,
    scratch: &mut Scratch,
) -> Result<Option<Relaxed>, AllocError>
    requires { Fits problem.now }
    ensures { IfOk result (λ o. IfSome o (IsRelaxed problem.now cutoff)) }
{
    let answer = led(alloc, problem, cutoff, cutoff, scratch)?;
    if answer.is_some() {
        return Ok(answer);
    }
    scratch.simplex.forget();
    led(alloc, problem, cutoff, None, scratch)
}

/// Relaxes the problem as [`relax`] does, led by floating point: a proof that closes the box, a whole point of it below
/// the cutoff, or a licence to split it. The scratch value may have served any problems before.
pub fn relax_led(
    alloc: Global,
    problem: &Problem<'_>,
    cutoff: Option<i64>,
    scratch: &mut Scratch,
) -> Result<Relaxed, AllocError>
    requires { Fits problem.now }
    ensures { IfOk result (IsRelaxed problem.now cutoff) }
{
    if is_small(problem) {
        return relax(alloc, problem, cutoff);
    }
    match led_twice(alloc, problem, cutoff, scratch)? {
        Some(answer) => Ok(answer),
        None => relax(alloc, problem, cutoff),
    }
}
