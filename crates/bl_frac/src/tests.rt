//! Worked values at the edges, each found by hand.
use super::*;
use std::cmp::Ordering;
use std::test::Fail;

const MAX: i128 = i128::MAX;

const TWO_32: i128 = 1 << 32;

const TWO_63: i128 = 1 << 63;

const TWO_64: i128 = 1 << 64;

const TWO_126: i128 = 1 << 126;

type Pair = (i128, i128);

fn fraction(pair: Pair) -> Result<Frac, Fail> {
    Ok(reduced(pair.0, pair.1).ok_or("not a fraction in lowest terms")?)
}

fn outcome(answer: Result<Frac, WideFrac>) -> Option<Pair> {
    match answer {
        Ok(value) => Some(parts(value)),
        Err(WideFrac) => None,
    }
}

#[test]
fn sums(rt: HostRuntime) -> Result<(), Fail> {
    let table: [(Pair, Pair, Option<Pair>); 14] = [
        ((1, 2), (1, 3), Some((5, 6))),
        ((1, 2), (-1, 2), Some((0, 1))),
        ((-1, 6), (-1, 3), Some((-1, 2))),
        ((0, 1), (0, 1), Some((0, 1))),
        ((MAX, 1), (0, 1), Some((MAX, 1))),
        ((1, MAX), (-1, MAX), Some((0, 1))),
        ((1, TWO_64), (1, TWO_64 + 1), None),
        // One term alone is wide: the sum, (2^126 + 1)/3, is not.
        ((TWO_126, 1), (-MAX, 3), None),
        ((-MAX, 3), (TWO_126, 1), None),
        // The sum of the terms alone is wide: 2^127 halves is 2^126.
        ((MAX, 2), (1, 2), None),
        ((-MAX, 2), (-1, 2), None),
        ((MAX, 1), (-1, 1), Some((MAX - 1, 1))),
        // The denominator alone is wide before the sum is reduced.
        ((1, TWO_64 * (TWO_32 + 1)), (1, TWO_64 * (TWO_32 - 1)), None),
        ((1, TWO_63), (1, TWO_63), Some((1, TWO_63 / 2))),
    ];
    for (a, b, want) in table {
        let sum = add(fraction(a)?, fraction(b)?);
        assert_eq!(rt; outcome(sum), want);
    }
    Ok(())
}

#[test]
fn differences(rt: HostRuntime) -> Result<(), Fail> {
    let table: [(Pair, Pair, Option<Pair>); 5] = [
        ((1, 2), (1, 3), Some((1, 6))),
        ((1, 3), (1, 2), Some((-1, 6))),
        ((0, 1), (MAX, 1), Some((-MAX, 1))),
        ((MAX, 1), (-1, 1), None),
        ((-MAX, 1), (1, 1), None),
    ];
    for (a, b, want) in table {
        let difference = sub(fraction(a)?, fraction(b)?);
        assert_eq!(rt; outcome(difference), want);
    }
    Ok(())
}

#[test]
fn products(rt: HostRuntime) -> Result<(), Fail> {
    let table: [(Pair, Pair, Option<Pair>); 9] = [
        ((2, 3), (3, 4), Some((1, 2))),
        ((-2, 3), (3, 4), Some((-1, 2))),
        ((-2, 3), (-3, 2), Some((1, 1))),
        ((0, 1), (1, MAX), Some((0, 1))),
        ((MAX, 1), (1, MAX), Some((1, 1))),
        ((TWO_63, 1), (TWO_63, 1), Some((TWO_126, 1))),
        ((TWO_64, 1), (-TWO_63, 1), None),
        ((1, TWO_64), (1, TWO_63), None),
        ((MAX, 1), (2, 1), None),
    ];
    for (a, b, want) in table {
        let product = mul(fraction(a)?, fraction(b)?);
        assert_eq!(rt; outcome(product), want);
    }
    Ok(())
}

fn divided(a: Frac, b: Frac) -> Option<Pair> {
    let (num, _) = parts(b);
    if num == 0 {
        return None;
    }
    outcome(div(a, b))
}

#[test]
fn quotients(rt: HostRuntime) -> Result<(), Fail> {
    let table: [(Pair, Pair, Option<Pair>); 8] = [
        ((1, 2), (1, 3), Some((3, 2))),
        ((1, 1), (-2, 1), Some((-1, 2))),
        ((-1, 2), (-1, 4), Some((2, 1))),
        ((0, 1), (-5, 1), Some((0, 1))),
        ((1, 1), (-MAX, 1), Some((-1, MAX))),
        ((MAX, 1), (MAX, 1), Some((1, 1))),
        ((MAX, 1), (1, MAX), None),
        ((1, MAX), (MAX, 1), None),
    ];
    for (a, b, want) in table {
        assert_eq!(rt; divided(fraction(a)?, fraction(b)?), want);
    }
    Ok(())
}

#[test]
fn comparisons(rt: HostRuntime) -> Result<(), Fail> {
    let table: [(Pair, Pair, Ordering); 9] = [
        ((1, 2), (1, 3), Ordering::Greater),
        ((-1, 2), (-1, 3), Ordering::Less),
        ((0, 1), (0, 1), Ordering::Equal),
        ((1, MAX), (-1, MAX), Ordering::Greater),
        // The cross products of these pass 128 bits.
        ((MAX, MAX - 1), (MAX - 1, MAX - 2), Ordering::Less),
        ((-MAX, MAX - 1), (1 - MAX, MAX - 2), Ordering::Greater),
        ((MAX, MAX - 1), (MAX, MAX - 1), Ordering::Equal),
        ((-MAX, MAX - 1), (MAX, MAX - 1), Ordering::Less),
        ((MAX, MAX - 1), (-MAX, MAX - 1), Ordering::Greater),
    ];
    for (a, b, want) in table {
        assert_eq!(rt; compare(fraction(a)?, fraction(b)?), want);
    }
    Ok(())
}

#[test]
fn whole_numbers(rt: HostRuntime) -> Result<(), Fail> {
    let table: [(Pair, i128, bool); 8] = [
        ((7, 2), 3, false),
        ((-7, 2), -4, false),
        ((-4, 1), -4, true),
        ((0, 1), 0, true),
        ((1, MAX), 0, false),
        ((-1, MAX), -1, false),
        ((MAX, 1), MAX, true),
        ((-MAX, 2), -TWO_126, false),
    ];
    for (a, want, is_integer) in table {
        let a = fraction(a)?;
        assert_eq!(rt; floor(a), want);
        assert_eq!(rt; is_whole(a), is_integer);
    }
    assert_eq!(rt; parts(whole(i64::MIN)), (-TWO_63, 1));
    Ok(())
}

#[test]
fn parts_in_lowest_terms(rt: HostRuntime) {
    for (num, den) in [(0, 1), (-3, 4), (MAX, 1), (1, MAX)] {
        assert_eq!(rt; reduced(num, den).map(parts), Some((num, den)));
    }
    for (num, den) in [(1, 0), (1, -1), (0, 2), (-2, 4), (i128::MIN, 1)] {
        assert!(rt; reduced(num, den).is_none());
    }
}
