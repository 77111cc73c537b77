//! A problem is read as it was built, and worked proofs, found by hand.
ghost use Rattle.std.specs.Prelude.{◌≡◌, length, IfOk};
ghost use Rattle.bl_terms.specs.Points.{IsArea};

use super::*;
use bl_raw::Listed;
use std::alloc::{AllocError, Global};
use std::process::Abort;
use std::test::Fail;

#[test]
fn rows_stay_in_order(rt: HostRuntime) -> Result<(), Fail> {
    let cost = [-1, -10];
    let (lo, hi) = ([0, 0], [10, 10]);
    let coefs = [[-25, 20], [1, 2]];
    let mut problem = Problem::start(rt.alloc(), &cost, &lo, &hi);
    problem.row(&coefs[0], 30)?;
    problem.row(&coefs[1], 10)?;
    assert_eq!(rt; problem.rows().len(), 2);
    for (row, (coef, right)) in problem.rows().iter().zip([([-25, 20], 30), ([1, 2], 10)]) {
        assert_eq!(rt; row.coef(), coef.as_slice());
        assert_eq!(rt; row.rhs(), right);
    }
    assert!(rt; problem.fits());
    problem.row(&coefs[0], (1 << 62) + 1)?;
    assert!(rt; !problem.fits());
    assert_eq!(rt; problem.cost(), cost.as_slice());
    assert_eq!(rt; problem.lo(), lo.as_slice());
    assert_eq!(rt; problem.hi(), hi.as_slice());
    Ok(())
}

// Minimise -X - 10Y for X and Y from 0 to 10 (Moore and Bard 1990).
fn moore_bard<'a>(
    alloc: Global,
    cost: &'a [i64; 2],
    lo: &'a [i64; 2],
    hi: &'a [i64; 2],
    coefs: &'a [[i64; 2]; 4],
) -> Result<Problem<'a>, AllocError>
    requires { IsArea (record { lo = lo.now; hi = hi.now }) }
    ensures { IfOk result (λ p. length p.area.lo ≡ 2) }
{
    let mut problem = Problem::start(alloc, cost, lo, hi);
    problem.row(&coefs[0], 30)?;
    problem.row(&coefs[1], 10)?;
    problem.row(&coefs[2], 15)?;
    problem.row(&coefs[3], -15)?;
    Ok(problem)
}

fn is_shown(
    rt: &impl Abort,
    alloc: Global,
    problem: &Problem<'_>,
    cutoff: Option<i64>,
    den: i64,
    mult: &[i64],
) -> Result<bool, AllocError> {
    assert!(rt; problem.fits());
    let proof = Proof {
        den,
        mult: Listed::new(Vec::from_slice(alloc, mult)?),
    };
    Ok(holds(problem, cutoff, &proof))
}

#[test]
fn proofs_of_a_worked_problem(rt: HostRuntime) -> Result<(), Fail> {
    let (cost, lo, hi) = ([-1, -10], [0, 0], [10, 10]);
    let coefs = [[-25, 20], [1, 2], [2, -1], [-2, -10]];
    let problem = moore_bard(rt.alloc(), &cost, &lo, &hi, &coefs)?;
    let table: [(Option<i64>, i64, [i64; 4], bool); 9] = [
        // The bound is -1470: it passes 35 times -43, and reaches 35 times -42 without passing it.
        (Some(-42), 35, [4, 135, 0, 0], true),
        (Some(-41), 35, [4, 135, 0, 0], false),
        (Some(-42), 35, [4, 135, 0, 1], false),
        (Some(-42), 35, [4, 135, -1, 0], false),
        (Some(-42), -35, [4, 135, 0, 0], false),
        (None, 35, [4, 135, 0, 0], false),
        (None, 0, [4, 135, 0, 0], false),
        (Some(-110), 1, [0, 0, 0, 0], true),
        (Some(-109), 1, [0, 0, 0, 0], false),
    ];
    for (cutoff, den, mult, expected) in table {
        assert_eq!(rt;
            is_shown(&rt, rt.alloc(), &problem, cutoff, den, &mult)?,
            expected
        );
    }
    assert!(rt; !is_shown(&rt, rt.alloc(), &problem, Some(-42), 35, &[4, 135, 0])?);
    assert!(rt;
        !is_shown(
            &rt,
            rt.alloc(),
            &problem,
            Some(-110),
            1 + (1 << 50),
            &[0, 0, 0, 0]
        )?
    );
    Ok(())
}

// What a plain proof is: its weight and its multipliers.
fn plain_numbers(
    rt: &impl Abort,
    alloc: Global,
    problem: &Problem<'_>,
    cutoff: Option<i64>,
) -> Result<Option<(i64, Vec<i64>)>, AllocError> {
    assert!(rt; problem.fits());
    let proof = plain_close(alloc, problem, cutoff)?;
    Ok(proof.map(|proof| (proof.den, proof.mult.into_vec())))
}

#[test]
fn plain_proofs_on_one_point(rt: HostRuntime) -> Result<(), Fail> {
    let (cost, at, coef) = ([2], [3], [1]);
    let mut loose = Problem::start(rt.alloc(), &cost, &at, &at);
    loose.row(&coef, 3)?;
    let mut tight = Problem::start(rt.alloc(), &cost, &at, &at);
    tight.row(&coef, 3)?;
    tight.row(&coef, 2)?;
    assert!(rt; plain_numbers(&rt, rt.alloc(), &loose, Some(7))?.is_none());
    let by_cost = plain_numbers(&rt, rt.alloc(), &loose, Some(6))?;
    assert!(rt; by_cost.is_some_and(|(den, mult)| den == 1 && mult.as_slice() == [0].as_slice()));
    let by_row = plain_numbers(&rt, rt.alloc(), &tight, Some(7))?;
    assert!(rt; by_row.is_some_and(|(den, mult)| den == 0 && mult.as_slice() == [0, 1].as_slice()));
    Ok(())
}
