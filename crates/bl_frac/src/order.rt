//! The order, and the whole number below.
ghost use Rattle.std.specs.Prelude.{◌≡◌, ◌*◌, ◌<◌, pos, ◌+ℤ◌, ◌*ℤ◌, ◌≤ℤ◌, ◌<ℤ◌};
ghost use Rattle.std.specs.Ordering.{nat_cmp};
ghost use Rattle.bl_simplex.specs.Fractions.{order_of};

use crate::fraction::Frac;
use crate::narrow::product;
use std::cmp::Ordering;

/// How `a` compares with `b`, for all pairs.
pub fn compare(a: Frac, b: Frac) -> Ordering
    ensures { result ≡ order_of a b }
{
    let left = product(a.num, b.den as i128);
    let right = product(b.num, a.den as i128);
    match (left, right) {
        (Ok(left), Ok(right)) => left.cmp(&right),
        _ => compare_by_quotients(a, b),
    }
}

fn compare_by_quotients(a: Frac, b: Frac) -> Ordering
    ensures { result ≡ order_of a b }
{
    let left = a.num.unsigned_abs();
    let right = b.num.unsigned_abs();
    match (a.num < 0, b.num < 0) {
        (false, false) => compare_ratios(left, a.den, right, b.den),
        (false, true) => Ordering::Greater,
        (true, false) => Ordering::Less,
        (true, true) => compare_ratios(right, b.den, left, a.den),
    }
}

// Ratios with one whole part compare as the reciprocals of what is left, the other way round.
fn compare_ratios(p: u128, q: u128, r: u128, s: u128) -> Ordering
    requires left { 0 < q }
    requires right { 0 < s }
    ensures { result ≡ nat_cmp (p * s) (r * q) }
{
    let left = p / q;
    let right = r / s;
    if left != right {
        return left.cmp(&right);
    }
    let left = p % q;
    let right = r % s;
    if left == 0 || right == 0 {
        return left.cmp(&right);
    }
    compare_ratios(s, right, q, left)
}

/// The greatest whole number that is not above `a`.
pub fn floor(a: Frac) -> i128
    ensures low { (result *ℤ pos a.den) ≤ℤ a.num }
    ensures high { a.num <ℤ ((result +ℤ pos 1) *ℤ pos a.den) }
{
    if a.den == 1 {
        return a.num;
    }
    a.num.div_euclid(a.den as i128)
}
