//! Worked licences, found by hand: for each kind one that holds, and one that fails by each of its conditions.
ghost use Rattle.std.specs.Prelude.{◌≡◌, length, OnOk};

use super::*;
use bl_bound::Problem;
use bl_frac::{Frac, reduced};
use bl_raw::Listed;
use std::alloc::{AllocError, Global};
use std::process::Abort;
use std::test::Fail;

const TWO_50: i128 = 1 << 50;

fn is_licensed(
    rt: &impl Abort,
    alloc: Global,
    problem: &Problem<'_>,
    cutoff: Option<i64>,
    why: &Why,
) -> Result<bool, AllocError> {
    assert!(rt; problem.fits());
    why_holds(alloc, problem, cutoff, why)
}

fn fractions(alloc: Global, pairs: &[(i128, i128)]) -> Result<Why, Fail> {
    let mut list: Vec<Frac> = Vec::new(alloc);
    for (num, den) in pairs {
        list.push(reduced(*num, *den).ok_or("not a fraction in lowest terms")?)?;
    }
    Ok(Why::Fraction(Listed::new(list)))
}

fn pivots(alloc: Global, list: &[(u32, u32)]) -> Result<Listed<(u32, u32)>, AllocError> {
    Ok(Listed::new(Vec::from_slice(alloc, list)?))
}

// Minimise -x for x from 0 to 3 where 2x <= 3: the distance is from 3 downward.
#[test]
fn fractional_points(rt: HostRuntime) -> Result<(), Fail> {
    let (cost, lo, hi, coef) = ([-1], [0], [3], [2]);
    let mut problem = Problem::start(rt.alloc(), &cost, &lo, &hi);
    problem.row(&coef, 3)?;
    let table: [(Option<i64>, (i128, i128), bool); 10] = [
        (None, (3, 2), true),
        (Some(0), (3, 2), true),
        // The cost -3/2 isn't at most -2.
        (Some(-1), (3, 2), false),
        // A cost of u is too much: at -1 + 1/2^50 it is above 0 - 1.
        (Some(0), (2 * TWO_50 - 1, TWO_50), true),
        (Some(0), (2 * TWO_50 + 1, TWO_50), false),
        // The row is broken by one part of the denominator.
        (None, (3 * TWO_50 / 2 - 1, TWO_50), false),
        (None, (3 * TWO_50 / 2 + 1, TWO_50), true),
        // A denominator past its limit.
        (None, (2 * TWO_50 + 1, TWO_50 + 1), false),
        // A whole point, and distances outside the range.
        (None, (2, 1), false),
        (None, (-1, 2), false),
    ];
    for (cutoff, pair, expected) in table {
        let why = fractions(rt.alloc(), &[pair])?;
        assert_eq!(rt;
            is_licensed(&rt, rt.alloc(), &problem, cutoff, &why)?,
            expected
        );
    }
    for pairs in [
        [(3, 2), (1, 1)].as_slice(),
        [].as_slice(),
        [(7, 2)].as_slice(),
    ] {
        let why = fractions(rt.alloc(), pairs)?;
        assert!(rt; !is_licensed(&rt, rt.alloc(), &problem, None, &why)?);
    }
    Ok(())
}

// Three rows p·X >= 1 with large primes and near primes: sums of the reciprocals soon have great denominators.
fn add_rows<'a>(problem: &mut Problem<'a>, coefs: &'a [[i64; 7]; 3]) -> Result<(), AllocError>
    requires { length problem.old.area.lo ≡ 7 }
    ensures { OnOk result (length problem.new.area.lo ≡ 7) }
{
    problem.row(&coefs[0], -1)?;
    problem.row(&coefs[1], -1)?;
    problem.row(&coefs[2], -1)?;
    Ok(())
}

const FIRST: [[i64; 7]; 3] = [
    [-9_999_999, 0, 0, 0, 0, 0, 0],
    [0, -9_999_998, 0, 0, 0, 0, 0],
    [0, 0, -9_999_997, 0, 0, 0, 0],
];

const SECOND: [[i64; 7]; 3] = [
    [0, 0, 0, -9_999_995, 0, 0, 0],
    [0, 0, 0, 0, -9_999_991, 0, 0],
    [0, 0, 0, 0, 0, -9_999_989, 0],
];

const DIAGONAL: [(u32, u32); 6] = [(0, 0), (1, 1), (2, 2), (3, 3), (4, 4), (5, 5)];

fn is_wide(
    rt: &impl Abort,
    alloc: Global,
    problem: &Problem<'_>,
    cutoff: Option<i64>,
    list: &[(u32, u32)],
    place: (u32, u32),
) -> Result<bool, AllocError> {
    let why = Why::Wide {
        pivots: pivots(alloc, list)?,
        row: place.0,
        column: place.1,
    };
    is_licensed(rt, alloc, problem, cutoff, &why)
}

#[test]
fn runs_past_the_width(rt: HostRuntime) -> Result<(), Fail> {
    let (cost, lo, hi) = ([1, 1, 1, 1, 1, 1, 0], [0; 7], [1; 7]);
    let (first, second) = (FIRST, SECOND);
    let mut problem = Problem::start(rt.alloc(), &cost, &lo, &hi);
    add_rows(&mut problem, &first)?;
    add_rows(&mut problem, &second)?;
    let turned = [(5, 5), (4, 4), (3, 3), (2, 2), (1, 1), (0, 0)];
    let illegal = [(0, 0), (1, 1), (2, 2), (3, 3), (4, 4), (5, 6)];
    let outside = [(0, 0), (1, 1), (2, 2), (3, 3), (4, 4), (5, 7)];
    let table: [(Option<i64>, &[(u32, u32)], (u32, u32), bool); 11] = [
        (None, &DIAGONAL, (13, 7), true),
        (Some(2), &DIAGONAL, (13, 7), true),
        (None, &turned, (13, 7), true),
        // After the first pivot the cost is above 0.
        (Some(1), &DIAGONAL, (13, 7), false),
        (None, &DIAGONAL, (13, 6), false),
        (None, &DIAGONAL, (14, 0), false),
        (None, &DIAGONAL[..5], (13, 7), false),
        (None, &DIAGONAL[1..], (13, 7), false),
        (None, &illegal, (13, 7), false),
        (None, &outside, (13, 7), false),
        (None, &[], (13, 7), false),
    ];
    for (cutoff, list, place, expected) in table {
        assert_eq!(rt;
            is_wide(&rt, rt.alloc(), &problem, cutoff, list, place)?,
            expected
        );
    }
    Ok(())
}

fn is_large(
    rt: &impl Abort,
    alloc: Global,
    problem: &Problem<'_>,
    cutoff: Option<i64>,
    list: &[(u32, u32)],
) -> Result<bool, AllocError> {
    let why = Why::Large {
        pivots: pivots(alloc, list)?,
    };
    is_licensed(rt, alloc, problem, cutoff, &why)
}

#[test]
fn runs_to_a_point_past_the_limit(rt: HostRuntime) -> Result<(), Fail> {
    let (cost, lo, hi, first) = ([1, 1, 1, 1, 1, 1, 0], [0; 7], [1; 7], FIRST);
    let mut problem = Problem::start(rt.alloc(), &cost, &lo, &hi);
    add_rows(&mut problem, &first)?;
    assert!(rt; is_large(&rt, rt.alloc(), &problem, None, &DIAGONAL[..3])?);
    assert!(rt; is_large(&rt, rt.alloc(), &problem, Some(2), &DIAGONAL[..3])?);
    assert!(rt; !is_large(&rt, rt.alloc(), &problem, Some(1), &DIAGONAL[..3])?);
    assert!(rt; !is_large(&rt, rt.alloc(), &problem, None, &DIAGONAL[..2])?);
    assert!(rt; !is_large(&rt, rt.alloc(), &problem, None, &[])?);
    let tired = Why::Tired {
        pivots: pivots(rt.alloc(), &DIAGONAL[..3])?,
    };
    assert!(rt; !is_licensed(&rt, rt.alloc(), &problem, None, &tired)?);
    Ok(())
}

// Each pivot adds a little less than 1 to the cost, so that the third one passes 2.
#[test]
fn runs_to_a_proof_past_the_limit(rt: HostRuntime) -> Result<(), Fail> {
    let cost = [9_999_998, 9_999_997, 9_999_996, 0, 0, 0, 0];
    let (lo, hi, first) = ([0; 7], [1; 7], FIRST);
    let mut problem = Problem::start(rt.alloc(), &cost, &lo, &hi);
    add_rows(&mut problem, &first)?;
    assert!(rt; is_large(&rt, rt.alloc(), &problem, Some(3), &DIAGONAL[..3])?);
    assert!(rt; !is_large(&rt, rt.alloc(), &problem, Some(2), &DIAGONAL[..3])?);
    // The numbers of two reciprocals fit.
    assert!(rt; !is_large(&rt, rt.alloc(), &problem, Some(2), &DIAGONAL[..2])?);
    Ok(())
}

const CIRCLING: [[i64; 4]; 4] = [[-1, 0, 1, -2], [2, 1, 1, 2], [2, 2, -2, 1], [1, -1, 0, 0]];

/// So many pivots, which begin with these three and then go round.
fn circle(
    alloc: Global,
    first: [(u32, u32); 3],
    count: usize,
) -> Result<Listed<(u32, u32)>, AllocError> {
    let round = [(7, 3), (0, 2), (1, 0)];
    let mut list: Vec<(u32, u32)> = Vec::from_slice(alloc, &first)?;
    for k in 0..count {
        list.push(round[k % 3])?;
    }
    list.truncate(count);
    Ok(Listed::new(list))
}

fn is_tired(
    rt: &impl Abort,
    alloc: Global,
    problem: &Problem<'_>,
    cutoff: Option<i64>,
    first: [(u32, u32); 3],
    count: usize,
) -> Result<bool, AllocError> {
    let why = Why::Tired {
        pivots: circle(alloc, first, count)?,
    };
    is_licensed(rt, alloc, problem, cutoff, &why)
}

// Without a cost every column of a negative entry has the ratio 0, and that of the least label enters. After the first
// three pivots two rounds of three lead to the same dictionary again. The limit is 1000 + 20 * 8.
#[test]
fn goes_round_to_the_limit(rt: HostRuntime) -> Result<(), Fail> {
    let (cost, lo, hi, rows) = ([0; 4], [0; 4], [1, 2, 1, 3], CIRCLING);
    let mut problem = Problem::start(rt.alloc(), &cost, &lo, &hi);
    problem.row(&rows[0], -2)?;
    problem.row(&rows[1], 1)?;
    problem.row(&rows[2], 2)?;
    problem.row(&rows[3], 1)?;
    let first = [(0, 0), (2, 3), (1, 1)];
    let table: [(Option<i64>, [(u32, u32); 3], usize, bool); 6] = [
        (None, first, 1160, true),
        (Some(1), first, 1160, true),
        // The cost 0 is above -1.
        (Some(0), first, 1160, false),
        (None, first, 1159, false),
        (None, first, 1161, false),
        // Column 3 has the same ratio as column 0, and the greater label.
        (None, [(0, 3), (2, 3), (1, 1)], 1160, false),
    ];
    for (cutoff, first, count, expected) in table {
        assert_eq!(rt;
            is_tired(&rt, rt.alloc(), &problem, cutoff, first, count)?,
            expected
        );
    }
    Ok(())
}

#[test]
fn a_better_response_is_no_licence_of_a_problem(rt: HostRuntime) -> Result<(), Fail> {
    let (cost, lo, hi) = ([1], [0], [1]);
    let problem = Problem::start(rt.alloc(), &cost, &lo, &hi);
    let why = Why::Better {
        point: Listed::new(Vec::from_slice(rt.alloc(), &[0])?),
        response: Listed::new(Vec::from_slice(rt.alloc(), &[0])?),
    };
    assert!(rt; !is_licensed(&rt, rt.alloc(), &problem, None, &why)?);
    Ok(())
}
