//! Common denominators, and the whole numbers that they make of fractions.
ghost use Rattle.std.specs.Prelude.{◌≡◌, ◌↔◌, IsTrue, ◌*◌, ◌<◌, ◌≤◌, pos, ◌*ℤ◌, ◌≤ℤ◌, length, IfOk, MatchOption};
ghost use Rattle.std.specs.Prelude.{unsigned_abs};
ghost use Rattle.std.specs.Int.{◌∣◌};
ghost use Rattle.std.specs.Option.{SomeIff};
ghost use Rattle.bl_simplex.specs.Gcd.{lcm};
ghost use Rattle.bl_simplex.specs.Rationals.{fraction_at, common_denominator as common_of, times_multiple};
ghost use Rattle.bl_tableau.specs.Cells.{AreReduced};
ghost use Rattle.bl_licence.specs.Steps.{AreWhole, PassesLimit};

use bl_frac::{Frac, gcd, parts};
use bl_limits::MAX_PROOF_NUMBER;
use std::alloc::{AllocError, Global};

/// The greatest magnitude of a proof number.
pub(crate) const LIMIT: u128 = MAX_PROOF_NUMBER as u128;

/// The least common multiple, unless it is above the limit of proof numbers.
fn lcm_within_limit(a: u128, b: u128) -> Option<u128>
    requires first { 0 < a }
    requires second { 0 < b }
    requires small { a ≤ LIMIT }
    ensures { SomeIff result (lcm a b ≤ LIMIT) (lcm a b) }
{
    if b > LIMIT {
        return None;
    }
    let divisor = gcd(a, b);
    let multiple = a / divisor * b;
    if multiple > LIMIT {
        return None;
    }
    Some(multiple)
}

/// The least common multiple of the fractions' denominators, unless it is above the limit of proof numbers.
pub fn common_denominator(fractions: &[Frac]) -> Option<u128>
    requires { AreReduced fractions.now }
    ensures { SomeIff result (common_of (length fractions.now) (fraction_at fractions.now) ≤ LIMIT)
        (common_of (length fractions.now) (fraction_at fractions.now)) }
{
    let mut common = 1;
    for k in 0..fractions.len() {
        let (_, den) = parts(fractions[k]);
        let Some(next) = lcm_within_limit(common, den.unsigned_abs()) else {
            return None;
        };
        common = next;
    }
    Some(common)
}

/// A product, unless its magnitude is above the limit of proof numbers.
fn product_within_limit(number: i128, factor: u128) -> Option<i64>
    requires positive { 0 < factor }
    requires small { factor ≤ LIMIT }
    ensures { SomeIff result (unsigned_abs (number *ℤ pos factor) ≤ LIMIT) (number *ℤ pos factor) }
{
    if number.unsigned_abs() > LIMIT {
        return None;
    }
    let product = number * factor as i128;
    if product.unsigned_abs() > LIMIT {
        return None;
    }
    Some(product as i64)
}

/// A fraction times a multiple of its denominator, unless its magnitude is above the limit of proof numbers.
fn whole_multiple(fraction: Frac, common: u128) -> Option<i64>
    requires positive { 0 < common }
    requires small { common ≤ LIMIT }
    requires multiple { fraction.den ∣ common }
    ensures { SomeIff result (unsigned_abs (times_multiple common fraction) ≤ LIMIT) (times_multiple common fraction) }
{
    let (num, den) = parts(fraction);
    product_within_limit(num, common / den.unsigned_abs())
}

/// The fractions, made whole by their common denominator, and that denominator. It is `None` exactly where one of
/// these numbers has a magnitude above the limit of proof numbers.
pub fn whole_multiples(
    alloc: Global,
    fractions: &[Frac],
) -> Result<Option<(u128, Vec<i64>)>, AllocError>
    requires { AreReduced fractions.now }
    ensures { IfOk result (λ o. MatchOption o (PassesLimit (length fractions.now) (fraction_at fractions.now))
        (λ p. AreWhole fractions.now p.0 p.1.items)) }
{
    let Some(common) = common_denominator(fractions) else {
        return Ok(None);
    };
    let mut numbers = Vec::with_capacity(alloc, fractions.len())?;
    for k in 0..fractions.len() {
        let Some(number) = whole_multiple(fractions[k], common) else {
            return Ok(None);
        };
        numbers.push(number)?;
    }
    Ok(Some((common, numbers)))
}

/// Whether the fractions, made whole by their common denominator, or that denominator pass the limit of proof numbers.
pub(crate) fn pass_limit(alloc: Global, fractions: &[Frac]) -> Result<bool, AllocError>
    requires { AreReduced fractions.now }
    ensures { IfOk result (λ b. IsTrue b ↔ PassesLimit (length fractions.now) (fraction_at fractions.now)) }
{
    let numbers = whole_multiples(alloc, fractions)?;
    match numbers {
        Some(_) => Ok(false),
        None => Ok(true),
    }
}
