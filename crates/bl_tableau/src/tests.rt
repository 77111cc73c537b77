//! Worked dictionaries, found by hand.
ghost use Rattle.std.specs.Prelude.{◌≡◌, ◌+◌, ◌<◌, ◌≤◌, false, length, OnOk, IfOk};
ghost use Rattle.bl_terms.specs.Points.{IsArea};
ghost use Rattle.bl_simplex.specs.Dictionaries.{columns, cost_row};

use super::*;
use bl_bound::Problem;
use bl_frac::parts;
use std::alloc::{AllocError, Global};
use std::process::Abort;
use std::test::Fail;

type Pair = (i128, i128);

// The cost row of a dictionary of four rows and two columns: its entries and its right side.
fn cost_numbers(tableau: &Tableau<'_, '_>) -> [Pair; 3]
    requires not_spent { tableau.now.spent ≡ false }
    requires rows { length tableau.now.problem.rows ≡ 4 }
    requires columns { length tableau.now.problem.area.lo ≡ 2 }
{
    [
        parts(tableau.entry(6, 0)),
        parts(tableau.entry(6, 1)),
        parts(tableau.right(6)),
    ]
}

// The pivot at a row and a column, whose entry is not 0.
fn step(rt: &impl Abort, tableau: &mut Tableau<'_, '_>, row: u32, column: u32) -> Result<(), Wide>
    requires not_spent { tableau.old.spent ≡ false }
    requires room { length tableau.old.pivots < tableau.old.most }
    requires row_in { row ≤ cost_row tableau.old.problem }
    requires column_in { column < columns tableau.old.problem }
    ensures problem { tableau.new.problem ≡ tableau.old.problem }
    ensures most { tableau.new.most ≡ tableau.old.most }
    ensures not_spent { OnOk result (tableau.new.spent ≡ false) }
    ensures count { length tableau.new.pivots ≡ length tableau.old.pivots + 1 }
{
    let (num, _) = parts(tableau.entry(row, column));
    assert!(rt; num != 0);
    tableau.pivot(row, column)
}

// Minimise -X - 10Y for X and Y from 0 to 10 (Moore and Bard 1990).
fn moore_bard<'a>(
    alloc: Global,
    cost: &'a [i64; 2],
    lo: &'a [i64; 2],
    hi: &'a [i64; 2],
    coefs: &'a [[i64; 2]; 4],
) -> Result<Problem<'a>, AllocError>
    requires { IsArea (record { lo = lo.now; hi = hi.now }) }
    ensures rows { IfOk result (λ p. length p.rows ≡ 4) }
    ensures columns { IfOk result (λ p. length p.area.lo ≡ 2) }
{
    let mut problem = Problem::start(alloc, cost, lo, hi);
    problem.row(&coefs[0], 30)?;
    problem.row(&coefs[1], 10)?;
    problem.row(&coefs[2], 15)?;
    problem.row(&coefs[3], -15)?;
    Ok(problem)
}

#[test]
fn pivots_of_a_worked_problem(rt: HostRuntime) -> Result<(), Fail> {
    let (cost, lo, hi) = ([-1, -10], [0, 0], [10, 10]);
    let coefs = [[-25, 20], [1, 2], [2, -1], [-2, -10]];
    let problem = moore_bard(rt.alloc(), &cost, &lo, &hi, &coefs)?;
    assert!(rt; problem.fits());
    let mut tableau = Tableau::start(rt.alloc(), &problem, 2)?;
    assert_eq!(rt; cost_numbers(&tableau), [(-1, 1), (-10, 1), (-110, 1)]);
    assert!(rt; tableau.is_legal(1, 0));
    // The ratio 5 is not the least one, and the right side of row 0 is not negative.
    assert!(rt; !tableau.is_legal(1, 1));
    assert!(rt; !tableau.is_legal(0, 1));
    step(&rt, &mut tableau, 1, 0).map_err(|_| "wide")?;
    assert_eq!(rt; cost_numbers(&tableau), [(-1, 1), (-8, 1), (-90, 1)]);
    assert_eq!(rt; (tableau.row_label(1), tableau.column_label(0)), (0, 3));
    assert!(rt; tableau.is_legal(0, 1));
    step(&rt, &mut tableau, 0, 1).map_err(|_| "wide")?;
    assert_eq!(rt; cost_numbers(&tableau), [(-27, 7), (-4, 35), (-42, 1)]);
    assert_eq!(rt; tableau.pivots(), [(1, 0), (0, 1)].as_slice());
    Ok(())
}

// Pivots at (0, 0), (1, 1) and so on.
fn pivot_along(rt: &impl Abort, tableau: &mut Tableau<'_, '_>, count: u32) -> Result<(), Wide>
    requires not_spent { tableau.old.spent ≡ false }
    requires room { length tableau.old.pivots + count ≤ tableau.old.most }
    requires rows { count ≤ cost_row tableau.old.problem }
    requires columns { count ≤ columns tableau.old.problem }
{
    for i in 0..count {
        step(rt, tableau, i, i)?;
    }
    Ok(())
}

// Six rows p·X >= 1 with large primes and near primes: the sum of the six reciprocals passes 128 bits.
fn reciprocals<'a>(
    alloc: Global,
    cost: &'a [i64; 7],
    lo: &'a [i64; 7],
    hi: &'a [i64; 7],
    coefs: &'a [[i64; 7]; 6],
) -> Result<Problem<'a>, AllocError>
    requires { IsArea (record { lo = lo.now; hi = hi.now }) }
    ensures rows { IfOk result (λ p. length p.rows ≡ 6) }
    ensures columns { IfOk result (λ p. length p.area.lo ≡ 7) }
{
    let mut problem = Problem::start(alloc, cost, lo, hi);
    problem.row(&coefs[0], -1)?;
    problem.row(&coefs[1], -1)?;
    problem.row(&coefs[2], -1)?;
    problem.row(&coefs[3], -1)?;
    problem.row(&coefs[4], -1)?;
    problem.row(&coefs[5], -1)?;
    Ok(problem)
}

#[test]
fn the_sixth_pivot_is_wide(rt: HostRuntime) -> Result<(), Fail> {
    let (cost, lo, hi) = ([1, 1, 1, 1, 1, 1, 0], [0; 7], [1; 7]);
    let coefs = [
        [-9_999_999, 0, 0, 0, 0, 0, 0],
        [0, -9_999_998, 0, 0, 0, 0, 0],
        [0, 0, -9_999_997, 0, 0, 0, 0],
        [0, 0, 0, -9_999_995, 0, 0, 0],
        [0, 0, 0, 0, -9_999_991, 0, 0],
        [0, 0, 0, 0, 0, -9_999_989, 0],
    ];
    let problem = reciprocals(rt.alloc(), &cost, &lo, &hi, &coefs)?;
    assert!(rt; problem.fits());
    let mut tableau = Tableau::start(rt.alloc(), &problem, 6)?;
    let wide = Wide {
        pivot: 5,
        row: 13,
        column: 7,
    };
    assert_eq!(rt; pivot_along(&rt, &mut tableau, 6), Err(wide));
    assert_eq!(rt; tableau.pivots().len(), 6);
    Ok(())
}
