//! The type of the fractions, and what it is made of.
ghost use Rattle.std.specs.Prelude.{◌≡◌, ◌↔◌, IsTrue, pos, ◌≤ℤ◌, ◌<ℤ◌, unsigned_abs};
ghost use Rattle.std.specs.Option.{SomeIff};
ghost use Rattle.bl_simplex.specs.Fractions.{IsReduced};

use crate::divisor::gcd;
use std::marker::Model;
use thiserror::Error;

/// A fraction in lowest terms: the numerator's magnitude is at most `2^127 - 1`, the denominator lies from 1 to
/// `2^127 - 1`. Contracts see it as the record of these two parts.
#[derive(Clone, Copy, Debug, PartialEq, Eq)]
pub struct Frac {
    pub(crate) num: i128,
    pub(crate) den: u128,
}

impl Model for Frac {
    ghost use Rattle.bl_simplex.specs.Fractions.{Fraction, IsReduced};

    ghost Value = { Fraction };

    ghost view = { λ f. record { num = f.num; den = f.den } };

    ghost invariant = { λ f. IsReduced (record { num = f.num; den = f.den }) };

    ghost inverse = { λ f. record { num = f.num; den = f.den } };
}

/// A number on the way to a result has a magnitude above `2^127 - 1`.
#[derive(Clone, Copy, Debug, PartialEq, Eq, Error)]
#[error("a number of the arithmetic passes 2^127 - 1")]
pub struct WideFrac;

/// The whole number `n`.
pub fn whole(n: i64) -> Frac
    ensures { result ≡ record { num = n; den = 1 } }
{
    Frac {
        num: i128::from(n),
        den: 1,
    }
}

/// Whether the denominator is 1.
pub fn is_whole(a: Frac) -> bool
    ensures { IsTrue result ↔ (a.den ≡ 1) }
{
    a.den == 1
}

/// Whether `a` is below 0.
pub fn is_negative(a: Frac) -> bool
    ensures { IsTrue result ↔ (a.num <ℤ pos 0) }
{
    a.num < 0
}

/// The numerator and the denominator.
pub fn parts(a: Frac) -> (i128, i128)
    ensures value { result ≡ (a.num, pos a.den) }
    ensures lowest_terms { IsReduced a }
{
    (a.num, a.den as i128)
}

/// The fraction of these two parts, as [`parts`] gave them. It is `None` where they aren't a fraction in lowest
/// terms: the denominator is below 1, a magnitude is above `2^127 - 1`, or both have a common divisor above 1.
pub fn reduced(num: i128, den: i128) -> Option<Frac>
    ensures { SomeIff result
        ((pos 1 ≤ℤ den) × IsReduced (record { num = num; den = unsigned_abs den }))
        (record { num = num; den = unsigned_abs den }) }
{
    if den < 1 || num == i128::MIN {
        return None;
    }
    let den = den.unsigned_abs();
    if gcd(num.unsigned_abs(), den) != 1 {
        return None;
    }
    Some(Frac { num, den })
}
