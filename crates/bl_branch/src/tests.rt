//! Small problems, solved by hand.
use super::*;
use bl_bound::Problem;
use std::test::Fail;

// Maximise X + 2Y over 2X + 2Y <= 3: the optimum is (0, 3/2). With Y up to 1 and 4 for 3 it is (1, 1), and X is split,
// which links.
#[test]
fn places(rt: HostRuntime) -> Result<(), Fail> {
    let (cost, lo, hi, coef) = ([-1, -2], [0, 0], [3, 3], [2, 2]);
    let mut problem = Problem::start(rt.alloc(), &cost, &lo, &hi);
    problem.row(&coef, 3)?;
    let mut guide = Guide::new(rt.alloc());
    let place = guide.place(0, &problem, &[0])?;
    assert_eq!(rt; place.map(|place| (place.column, place.at)), Some((1, 1)));
    let hi = [3, 1];
    let mut problem = Problem::start(rt.alloc(), &cost, &lo, &hi);
    problem.row(&coef, 4)?;
    let place = guide.place(0, &problem, &[0])?;
    assert_eq!(rt; place.map(|place| (place.column, place.at)), Some((0, 1)));
    Ok(())
}

// Nodes 1 and 2 are halves of the root, and nodes 3 and 4 of that which came first.
#[test]
fn nodes_that_wait(rt: HostRuntime) -> Result<(), Fail> {
    let mut guide = Guide::new(rt.alloc());
    assert_eq!(rt; guide.next(), None);
    guide.split(1, 2)?;
    assert_eq!(rt; guide.next(), Some(2));
    guide.split(3, 4)?;
    assert_eq!(rt; guide.next(), Some(4));
    assert_eq!(rt; guide.next(), Some(3));
    assert_eq!(rt; guide.next(), Some(1));
    assert_eq!(rt; guide.next(), None);
    Ok(())
}

// Columns that aren't there, no columns, and a box that has one point.
#[test]
fn hostile_problems(rt: HostRuntime) -> Result<(), Fail> {
    let mut guide = Guide::new(rt.alloc());
    let empty = Problem::start(rt.alloc(), &[], &[], &[]);
    assert!(rt; guide.place(7, &empty, &[5])?.is_none());
    let (cost, lo, hi, coef) = ([1, -1], [3, 3], [3, 3], [1, 1]);
    let mut problem = Problem::start(rt.alloc(), &cost, &lo, &hi);
    problem.row(&coef, 6)?;
    assert!(rt; guide.place(0, &problem, &[1, 9])?.is_none());
    Ok(())
}
