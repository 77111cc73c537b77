//! Worked and hostile problems, solved by hand.
ghost use Rattle.bl_terms.specs.Points.{IsArea};

use super::*;
use bl_bound::Problem;
use std::alloc::{AllocError, Global};
use std::test::Fail;

// The problem of two rows.
fn two_rows<'a>(
    alloc: Global,
    cost: &'a [i64; 2],
    lo: &'a [i64; 2],
    hi: &'a [i64; 2],
    coefs: &'a [[i64; 2]; 2],
    rhs: [i64; 2],
) -> Result<Problem<'a>, AllocError>
    requires { IsArea (record { lo = lo.now; hi = hi.now }) }
{
    let mut problem = Problem::start(alloc, cost, lo, hi);
    problem.row(&coefs[0], rhs[0])?;
    problem.row(&coefs[1], rhs[1])?;
    Ok(problem)
}

// Whether the answer is an optimum of this cost.
fn is_optimum(end: End, simplex: &FloatSimplex, cost: f64) -> bool {
    end == End::Optimal && (simplex.cost() - cost).abs() < 1e-6
}

// Minimise -X - 10Y for X and Y from 0 to 10 (Moore and Bard 1990): the optimum is (2, 4), and after a change of the
// box to Y from 0 to 3 it is (4, 3).
#[test]
fn goes_on_from_the_last_box(rt: HostRuntime) -> Result<(), Fail> {
    let (cost, lo, hi) = ([-1, -10], [0, 0], [10, 10]);
    let coefs = [[-25, 20], [1, 2]];
    let mut simplex = FloatSimplex::new(rt.alloc());
    let problem = two_rows(rt.alloc(), &cost, &lo, &hi, &coefs, [30, 10])?;
    let end = simplex.solve(&problem, None)?;
    assert!(rt; is_optimum(end, &simplex, -42.0));
    let end = simplex.solve(&problem, Some(-42))?;
    assert!(rt; end == End::AboveCutoff);
    let hi = [10, 3];
    let lower = two_rows(rt.alloc(), &cost, &lo, &hi, &coefs, [30, 10])?;
    let end = simplex.solve(&lower, None)?;
    assert!(rt; is_optimum(end, &simplex, -34.0));
    assert_eq!(rt; simplex.point().len(), 2);
    let end = simplex.solve(&problem, None)?;
    assert!(rt; is_optimum(end, &simplex, -42.0));
    Ok(())
}

// Minimise x + y over a box of fixed and free columns, with equal rows, empty rows, contradictory equations and 10^7
// beside 1.
#[test]
fn hostile_rows(rt: HostRuntime) -> Result<(), Fail> {
    let (cost, lo, hi) = ([1, 1], [0, 2], [1_000_000, 2]);
    let table: [([[i64; 2]; 2], [i64; 2], Option<f64>); 6] = [
        ([[-1, 0], [-1, 0]], [-3, -3], Some(5.0)),
        ([[0, 0], [0, 0]], [0, 0], Some(2.0)),
        ([[0, 0], [1, 0]], [-1, 1], None),
        ([[1, 0], [-1, 0]], [3, -4], None),
        ([[-10_000_000, 1], [-1, 0]], [-4_999_998, 0], Some(2.5)),
        ([[1, -10_000_000], [-1, 1]], [-20_000_001, 3], None),
    ];
    let mut simplex = FloatSimplex::new(rt.alloc());
    for (coefs, rhs, optimum) in table {
        let problem = two_rows(rt.alloc(), &cost, &lo, &hi, &coefs, rhs)?;
        let end = simplex.solve(&problem, None)?;
        match optimum {
            Some(cost) => assert!(rt; is_optimum(end, &simplex, cost)),
            None => assert!(rt; end == End::Infeasible),
        }
    }
    Ok(())
}

// Without columns the rows are met or not.
#[test]
fn no_columns(rt: HostRuntime) -> Result<(), Fail> {
    let mut simplex = FloatSimplex::new(rt.alloc());
    let mut problem = Problem::start(rt.alloc(), &[], &[], &[]);
    problem.row(&[], 0)?;
    let end = simplex.solve(&problem, None)?;
    assert!(rt; is_optimum(end, &simplex, 0.0));
    problem.row(&[], -1)?;
    let end = simplex.solve(&problem, None)?;
    assert!(rt; end == End::Infeasible);
    assert_eq!(rt; simplex.multipliers().len(), 2);
    Ok(())
}
