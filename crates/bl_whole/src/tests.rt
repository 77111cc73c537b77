//! Each function once, at answers worked out by hand.

use crate::{dot_product, int64, int128};

#[test]
fn computes_with_sums_and_products(rt: HostRuntime) {
    assert_eq!(rt; int64::plus(-7, 4), -3);
    assert_eq!(rt; int64::minus(-7, 4), -11);
    assert_eq!(rt; int64::times(-7, 4), -28);
    assert_eq!(rt; int64::plus_product(2, -7, 4), -26);
    assert_eq!(rt; int128::plus(-7, 4), -3);
    assert_eq!(rt; int128::minus(-7, 4), -11);
    assert_eq!(rt; int128::times(-7, 4), -28);
    assert_eq!(rt; int128::plus_product(2, -7, 4), -26);
    assert_eq!(rt;
        int128::widening_product(4611686018427387904, 4),
        18446744073709551616
    );
    assert_eq!(rt; int128::plus_widening_product(1, -2, 3), -5);
}

#[test]
fn adds_products_by_place(rt: HostRuntime) {
    assert_eq!(rt; dot_product(&[2, -3, 5], &[7, 11, -13]), -84);
    assert_eq!(rt; dot_product(&[], &[]), 0);
}
