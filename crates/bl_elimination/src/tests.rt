//! Rows and their inverses, worked by hand.
use super::*;
use bl_bound::Problem;
use std::alloc::Global;
use std::process::Abort;
use std::test::Fail;

fn eliminated(rt: &impl Abort, alloc: Global, rows: &Problem<'_>) -> Result<Basis, NoBasis> {
    assert!(rt; rows.fits());
    eliminate(alloc, rows)
}

fn is_same(basis: &Basis, kept: &[u32], den: i64, units: &[&[(u32, i64)]]) -> bool {
    basis.kept.as_slice() == kept
        && basis.den == den
        && basis.units.as_slice().len() == units.len()
        && basis
            .units
            .as_slice()
            .iter()
            .zip(units)
            .all(|(unit, expected)| unit.as_slice() == *expected)
}

#[test]
fn two_rows_and_their_inverse(rt: HostRuntime) -> Result<(), Fail> {
    let (zeros, first, second) = ([0, 0], [-25, 20], [1, 2]);
    let mut rows = Problem::start(rt.alloc(), &zeros, &zeros, &zeros);
    rows.row(&first, 30)?;
    rows.row(&second, 10)?;
    // A row past the last that is needed.
    rows.row(&first, 0)?;
    let basis = eliminated(&rt, rt.alloc(), &rows)?;
    let units = [[(0, -2), (1, 20)].as_slice(), [(0, 1), (1, 25)].as_slice()];
    assert!(rt; is_same(&basis, &[0, 1], 70, &units));
    Ok(())
}

#[test]
fn rows_that_depend(rt: HostRuntime) -> Result<(), Fail> {
    let (zeros, first, second) = ([0, 0], [1, 2], [2, 4]);
    let mut rows = Problem::start(rt.alloc(), &zeros, &zeros, &zeros);
    rows.row(&first, 0)?;
    let alone = eliminated(&rt, rt.alloc(), &rows);
    assert!(rt; alone.is_err_and(|e| e == NoBasis::NotUnique { pivots: 1 }));
    rows.row(&second, 0)?;
    let both = eliminated(&rt, rt.alloc(), &rows);
    assert!(rt; both.is_err_and(|e| e == NoBasis::NotUnique { pivots: 1 }));
    Ok(())
}

#[test]
fn rows_that_are_dropped(rt: HostRuntime) -> Result<(), Fail> {
    let (zeros, right, left) = ([0, 0], [0, 1], [1, 0]);
    let mut rows = Problem::start(rt.alloc(), &zeros, &zeros, &zeros);
    rows.row(&zeros, 0)?;
    rows.row(&left, 0)?;
    rows.row(&right, 0)?;
    let basis = eliminated(&rt, rt.alloc(), &rows)?;
    let units = [[(0, 1)].as_slice(), [(1, 1)].as_slice()];
    assert!(rt; is_same(&basis, &[1, 2], 1, &units));
    Ok(())
}

// The third row is the sum of the first two.
#[test]
fn three_of_four_rows(rt: HostRuntime) -> Result<(), Fail> {
    let (zeros, coefs) = ([0, 0, 0], [[0, 2, 1], [1, 1, 0], [1, 3, 1], [3, 0, 5]]);
    let mut rows = Problem::start(rt.alloc(), &zeros, &zeros, &zeros);
    rows.row(&coefs[0], 0)?;
    rows.row(&coefs[1], 0)?;
    rows.row(&coefs[2], 0)?;
    rows.row(&coefs[3], 0)?;
    let basis = eliminated(&rt, rt.alloc(), &rows)?;
    let units = [
        [(0, -5), (1, 10), (2, 1)].as_slice(),
        [(0, 5), (1, 3), (2, -1)].as_slice(),
        [(0, 3), (1, -6), (2, 2)].as_slice(),
    ];
    assert!(rt; is_same(&basis, &[0, 1, 3], 13, &units));
    Ok(())
}

#[test]
fn no_columns(rt: HostRuntime) -> Result<(), Fail> {
    let rows = Problem::start(rt.alloc(), &[], &[], &[]);
    let basis = eliminated(&rt, rt.alloc(), &rows)?;
    assert!(rt; is_same(&basis, &[], 1, &[]));
    Ok(())
}

// The determinant of the first two is 2^72 - 1.
#[test]
fn numbers_past_their_limit(rt: HostRuntime) -> Result<(), Fail> {
    let most = 1 << 36;
    let (zeros, coefs) = ([0, 0], [[most, 1], [1, most]]);
    let mut rows = Problem::start(rt.alloc(), &zeros, &zeros, &zeros);
    rows.row(&coefs[0], 0)?;
    rows.row(&coefs[1], 0)?;
    let inverse = eliminated(&rt, rt.alloc(), &rows);
    assert!(rt; inverse.is_err_and(|e| e == NoBasis::TooLarge { position: 2 }));
    let (zeros, coefs) = (
        [0; 4],
        [
            [most, 1, 0, 0],
            [1, most, 1, 0],
            [0, 1, most, 1],
            [1, 0, 1, most],
        ],
    );
    let mut rows = Problem::start(rt.alloc(), &zeros, &zeros, &zeros);
    rows.row(&coefs[0], 0)?;
    rows.row(&coefs[1], 0)?;
    rows.row(&coefs[2], 0)?;
    rows.row(&coefs[3], 0)?;
    let candidate = eliminated(&rt, rt.alloc(), &rows);
    assert!(rt; candidate.is_err_and(|e| e == NoBasis::TooLarge { position: 2 }));
    Ok(())
}
