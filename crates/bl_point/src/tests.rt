//! Worked points, found by hand.
use super::*;
use bl_bound::Problem;
use std::test::Fail;

// Minimise -x for x from 0 to 3 where 2x <= 3: 1 is a point and costs -1; 2 breaks the row, 4 leaves the box.
#[test]
fn points_of_a_line(rt: HostRuntime) -> Result<(), Fail> {
    let (cost, lo, hi, coef) = ([-1], [0], [3], [2]);
    let mut problem = Problem::start(rt.alloc(), &cost, &lo, &hi);
    problem.row(&coef, 3)?;
    assert!(rt; problem.fits());
    assert!(rt; whole_at(&problem, None, &[1]));
    assert!(rt; whole_at(&problem, Some(0), &[1]));
    assert!(rt; !whole_at(&problem, Some(-1), &[1]));
    assert!(rt; !whole_at(&problem, None, &[2]));
    assert!(rt; !whole_at(&problem, None, &[4]));
    assert!(rt; !whole_at(&problem, None, &[-1]));
    assert!(rt; !whole_at(&problem, None, &[1, 0]));
    Ok(())
}
