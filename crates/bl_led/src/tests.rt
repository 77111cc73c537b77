//! Worked relaxations that are large enough to be led, found by hand.
ghost use Rattle.bl_terms.specs.Points.{IsArea};

use super::*;
use bl_bound::Problem;
use bl_relax::{Relaxed, Why};
use std::alloc::{AllocError, Global};
use std::process::Abort;
use std::test::Fail;

fn answer(
    rt: &impl Abort,
    alloc: Global,
    problem: &Problem<'_>,
    cutoff: Option<i64>,
    scratch: &mut Scratch,
) -> Result<Relaxed, AllocError> {
    assert!(rt; problem.fits());
    relax_led(alloc, problem, cutoff, scratch)
}

// Minimise the sum of the columns from 0 to 2 where two rows hold.
fn sum_of_columns<'a>(
    alloc: Global,
    cost: &'a [i64; 14],
    lo: &'a [i64; 14],
    hi: &'a [i64; 14],
    coefs: &'a [[i64; 14]; 2],
    rhs: [i64; 2],
) -> Result<Problem<'a>, AllocError>
    requires { IsArea (record { lo = lo.now; hi = hi.now }) }
{
    let mut problem = Problem::start(alloc, cost, lo, hi);
    problem.row(&coefs[0], rhs[0])?;
    problem.row(&coefs[1], rhs[1])?;
    Ok(problem)
}

// What an answer is, in a word.
fn kind_of(answer: &Relaxed) -> &'static str {
    match answer {
        Relaxed::Closed(proof) if proof.den == 0 => "empty",
        Relaxed::Closed(_) => "above",
        Relaxed::Whole(_) => "whole",
        Relaxed::Stuck(Why::Fraction(_)) => "fraction",
        Relaxed::Stuck(_) => "stuck",
    }
}

#[test]
fn each_answer(rt: HostRuntime) -> Result<(), Fail> {
    let (cost, lo, hi) = ([1; 14], [0; 14], [2; 14]);
    // The rows are a lower and an upper limit on a multiple of the sum, or of 10^7 times it.
    let table: [(i64, [i64; 2], Option<i64>, &str); 7] = [
        (1, [-29, 29], None, "empty"),
        (1, [-3, 28], Some(3), "above"),
        (1, [-3, 28], Some(4), "whole"),
        (2, [-3, 3], None, "fraction"),
        (2, [-3, 3], Some(2), "above"),
        (10_000_000, [-15_000_000, 15_000_000], Some(9), "fraction"),
        (10_000_000, [-280_000_001, 280_000_001], None, "empty"),
    ];
    let mut scratch = Scratch::new(rt.alloc());
    for (factor, rhs, cutoff, expected) in table {
        let coefs = [[-factor; 14], [factor; 14]];
        let problem = sum_of_columns(rt.alloc(), &cost, &lo, &hi, &coefs, rhs)?;
        let found = answer(&rt, rt.alloc(), &problem, cutoff, &mut scratch)?;
        assert_eq!(rt; kind_of(&found), expected);
    }
    Ok(())
}

// Minimise -x for x from 0 to 3 where 2x <= 3, which is relaxed exactly at once.
#[test]
fn a_small_problem(rt: HostRuntime) -> Result<(), Fail> {
    let (cost, lo, hi, coef) = ([-1], [0], [3], [2]);
    let mut problem = Problem::start(rt.alloc(), &cost, &lo, &hi);
    problem.row(&coef, 3)?;
    let mut scratch = Scratch::new(rt.alloc());
    let found = answer(&rt, rt.alloc(), &problem, None, &mut scratch)?;
    assert_eq!(rt; kind_of(&found), "whole");
    Ok(())
}
