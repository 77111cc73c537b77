//! Whole numbers whose magnitude is at most `2^127 - 1`, with 64-bit steps where both numbers are that small.
ghost use Rattle.std.specs.Prelude.{◌≡◌, ◌/◌, ◌^◌, ◌<◌, ◌≤◌, pos, ◌+ℤ◌, ◌*ℤ◌, int_div, MatchOption};
ghost use Rattle.bl_frac.specs.Narrowed.{IsNarrowed, IsNarrowedFrom};

use crate::fraction::WideFrac;

/// The product, unless its magnitude is above `2^127 - 1`.
pub fn product(x: i128, y: i128) -> Result<i128, WideFrac>
    ensures { IsNarrowed (x *ℤ y) result }
{
    if let (Ok(p), Ok(q)) = (i64::try_from(x), i64::try_from(y)) {
        return Ok(i128::from(p) * i128::from(q));
    }
    narrowed(x.checked_mul(y))
}

/// The sum, unless its magnitude is above `2^127 - 1`.
pub fn sum(x: i128, y: i128) -> Result<i128, WideFrac>
    ensures { IsNarrowed (x +ℤ y) result }
{
    narrowed(x.checked_add(y))
}

// `i128` has one number more on the negative side.
fn narrowed(z: Option<i128>) -> Result<i128, WideFrac>
    ensures { IsNarrowedFrom z result }
{
    match z {
        Some(z) if z != i128::MIN => Ok(z),
        _ => Err(WideFrac),
    }
}

/// `z / g`, rounded toward zero.
pub fn share(z: i128, g: u128) -> i128
    requires positive { 0 < g }
    requires narrow { g < 2 ^ 127 }
    ensures { result ≡ int_div z (pos g) }
{
    if g == 1 {
        return z;
    }
    if let (Ok(p), Ok(q)) = (i64::try_from(z), i64::try_from(g)) {
        return i128::from(p / q);
    }
    z / g as i128
}

/// `n / g`, rounded down.
pub fn quotient(n: u128, g: u128) -> u128
    requires { 0 < g }
    ensures value { result ≡ n / g }
    ensures bound { result ≤ n }
{
    if g == 1 {
        return n;
    }
    if let (Ok(p), Ok(q)) = (u64::try_from(n), u64::try_from(g)) {
        return u128::from(p / q);
    }
    n / g
}
