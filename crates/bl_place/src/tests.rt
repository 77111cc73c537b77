//! Places of small boxes, worked out by hand.
use super::*;
use bl_frac::{Frac, reduced, whole};
use std::test::Fail;

fn half(num: i128) -> Frac {
    reduced(num, 2).unwrap_or(whole(0))
}

#[test]
fn the_widest_column(rt: HostRuntime) -> Result<(), Fail> {
    assert_eq!(rt;
        widest(&[0, 3, -2], &[1, 3, 5]),
        Some(Place { column: 2, at: 1 })
    );
    assert_eq!(rt; widest(&[0, 0], &[4, 4]), Some(Place { column: 0, at: 2 }));
    assert_eq!(rt; widest(&[7, -7], &[7, -7]), None);
    assert_eq!(rt;
        widest_among(&[0, 3, -2], &[1, 3, 5], &[0, 1]),
        Some(Place { column: 0, at: 0 })
    );
    assert_eq!(rt; widest_among(&[0, 3, -2], &[1, 3, 5], &[1]), None);
    Ok(())
}

// A column that costs nothing or more starts at its lower end, one that costs less at its upper end.
#[test]
fn the_floor_of_a_fraction(rt: HostRuntime) -> Result<(), Fail> {
    let distances = [whole(1), half(3), half(5)];
    let (lo, hi) = ([0, 0, 0], [9, 9, 9]);
    assert_eq!(rt;
        fractional(&[0, 1, -1], &lo, &hi, &distances, &[]),
        Some(Place { column: 1, at: 1 })
    );
    assert_eq!(rt;
        fractional(&[0, 1, -1], &lo, &hi, &distances, &[0, 2]),
        Some(Place { column: 2, at: 6 })
    );
    assert_eq!(rt; fractional(&[0], &[0], &[9], &[whole(4)], &[0]), None);
    Ok(())
}
