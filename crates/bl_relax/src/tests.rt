//! Worked relaxations, found by hand.
ghost use Rattle.std.specs.Prelude.{◌≡◌, length, IfOk, OnOk};
ghost use Rattle.bl_terms.specs.Points.{IsArea};

use super::*;
use bl_bound::Problem;
use std::alloc::{AllocError, Global};
use std::process::Abort;
use std::test::Fail;

fn answer(
    rt: &impl Abort,
    alloc: Global,
    problem: &Problem<'_>,
    cutoff: Option<i64>,
) -> Result<Relaxed, AllocError> {
    assert!(rt; problem.fits());
    relax(alloc, problem, cutoff)
}

// Minimise -X - 10Y for X and Y from 0 to 10 (Moore and Bard 1990).
fn moore_bard<'a>(
    alloc: Global,
    cost: &'a [i64; 2],
    lo: &'a [i64; 2],
    hi: &'a [i64; 2],
    coefs: &'a [[i64; 2]; 4],
) -> Result<Problem<'a>, AllocError>
    requires { IsArea (record { lo = lo.now; hi = hi.now }) }
    ensures { IfOk result (λ p. length p.area.lo ≡ 2) }
{
    let mut problem = Problem::start(alloc, cost, lo, hi);
    problem.row(&coefs[0], 30)?;
    problem.row(&coefs[1], 10)?;
    problem.row(&coefs[2], 15)?;
    problem.row(&coefs[3], -15)?;
    Ok(problem)
}

#[test]
fn a_vertex_and_its_proof(rt: HostRuntime) -> Result<(), Fail> {
    let (cost, lo, hi) = ([-1, -10], [0, 0], [10, 10]);
    let coefs = [[-25, 20], [1, 2], [2, -1], [-2, -10]];
    let problem = moore_bard(rt.alloc(), &cost, &lo, &hi, &coefs)?;
    let whole = answer(&rt, rt.alloc(), &problem, None)?;
    match &whole {
        Relaxed::Whole(point) => assert_eq!(rt; point.as_slice(), [2, 4].as_slice()),
        _ => assert!(rt; false),
    }
    let closed = answer(&rt, rt.alloc(), &problem, Some(-42))?;
    assert!(rt; matches!(closed, Relaxed::Closed(_)));
    Ok(())
}

// Minimise x + y for x and y from 0 to 1: the rows ask for x + y >= 3, or x >= 1/p and y >= 1/r where no whole number
// up to 2^50 is a multiple of both.
#[test]
fn no_point_and_large_numbers(rt: HostRuntime) -> Result<(), Fail> {
    let (cost, lo, hi) = ([1, 1], [0, 0], [1, 1]);
    let (sum, first, second) = ([-1, -1], [-33_554_393, 0], [0, -67_108_859]);
    let mut empty = Problem::start(rt.alloc(), &cost, &lo, &hi);
    empty.row(&sum, -3)?;
    match &answer(&rt, rt.alloc(), &empty, None)? {
        Relaxed::Closed(proof) => assert_eq!(rt; proof.den, 0),
        _ => assert!(rt; false),
    }
    let mut large = Problem::start(rt.alloc(), &cost, &lo, &hi);
    large.row(&first, -1)?;
    large.row(&second, -1)?;
    let stuck = answer(&rt, rt.alloc(), &large, Some(2))?;
    assert!(rt; matches!(stuck, Relaxed::Stuck(Why::Large { .. })));
    Ok(())
}

// Three rows p·X >= 1 with large primes and near primes: the sum of six reciprocals passes 128 bits.
fn add_rows<'a>(problem: &mut Problem<'a>, coefs: &'a [[i64; 7]; 3]) -> Result<(), AllocError>
    requires { length problem.old.area.lo ≡ 7 }
    ensures { OnOk result (length problem.new.area.lo ≡ 7) }
{
    problem.row(&coefs[0], -1)?;
    problem.row(&coefs[1], -1)?;
    problem.row(&coefs[2], -1)?;
    Ok(())
}

// How many pivots were taken, and the place at which the last one passed 128 bits.
fn wide_place(answer: &Relaxed) -> Option<(usize, u32, u32)> {
    match answer {
        Relaxed::Stuck(
            Why::Wide {
                pivots,
                row,
                column,
            },
        ) => Some((pivots.as_slice().len(), *row, *column)),
        _ => None,
    }
}

#[test]
fn the_sixth_pivot_is_wide(rt: HostRuntime) -> Result<(), Fail> {
    let (cost, lo, hi) = ([1, 1, 1, 1, 1, 1, 0], [0; 7], [1; 7]);
    let first = [
        [-9_999_999, 0, 0, 0, 0, 0, 0],
        [0, -9_999_998, 0, 0, 0, 0, 0],
        [0, 0, -9_999_997, 0, 0, 0, 0],
    ];
    let second = [
        [0, 0, 0, -9_999_995, 0, 0, 0],
        [0, 0, 0, 0, -9_999_991, 0, 0],
        [0, 0, 0, 0, 0, -9_999_989, 0],
    ];
    let mut problem = Problem::start(rt.alloc(), &cost, &lo, &hi);
    add_rows(&mut problem, &first)?;
    add_rows(&mut problem, &second)?;
    let wide = answer(&rt, rt.alloc(), &problem, None)?;
    assert_eq!(rt; wide_place(&wide), Some((6, 13, 7)));
    Ok(())
}

// Minimise -x for x from 0 to 3 where 2x <= 3: rounding finds 1 without a cutoff, and below -1 nothing is left.
#[test]
fn a_fractional_optimum(rt: HostRuntime) -> Result<(), Fail> {
    let (cost, lo, hi, coef) = ([-1], [0], [3], [2]);
    let mut problem = Problem::start(rt.alloc(), &cost, &lo, &hi);
    problem.row(&coef, 3)?;
    let rounded = answer(&rt, rt.alloc(), &problem, None)?;
    assert!(rt; matches!(rounded, Relaxed::Whole(_)));
    let closed = answer(&rt, rt.alloc(), &problem, Some(-1))?;
    assert!(rt; matches!(closed, Relaxed::Closed(_)));
    // Minimise -x - y where 2x + 2y <= 3 and 2x - 2y = 1: x = 1, y = 1/2.
    let (cost, lo, hi) = ([-1, -1], [0, 0], [3, 3]);
    let coefs = [[2, 2], [2, -2], [-2, 2]];
    let mut slanted = Problem::start(rt.alloc(), &cost, &lo, &hi);
    slanted.row(&coefs[0], 3)?;
    slanted.row(&coefs[1], 1)?;
    slanted.row(&coefs[2], -1)?;
    let stuck = answer(&rt, rt.alloc(), &slanted, None)?;
    assert!(rt; matches!(stuck, Relaxed::Stuck(Why::Fraction(_))));
    Ok(())
}
