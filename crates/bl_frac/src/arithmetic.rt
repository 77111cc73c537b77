//! The sum, the difference, the product and the quotient.
ghost use Rattle.std.specs.Prelude.{◌≡◌, ◌≢◌, ◌/◌, ◌^◌, ◌<◌, pos, ◌+ℤ◌, ◌*ℤ◌, unsigned_abs, int_div, true, false};
ghost use Rattle.std.specs.Prelude.{MatchResult};
ghost use Rattle.std.specs.Option.{ok_or};
ghost use Rattle.bl_simplex.specs.Fractions.{narrow, sum_of, difference_of, product_of, quotient_of, negated};
ghost use Rattle.bl_simplex.specs.Fractions.{reciprocal};

use crate::divisor::gcd;
use crate::fraction::{Frac, WideFrac};
use crate::narrow::{product, quotient, share, sum};

/// The sum. With `g` the greatest common divisor of the denominators, it is `WideFrac` exactly where
/// `a.num * (b.den / g)`, `b.num * (a.den / g)`, their sum or `(a.den / g) * b.den` has a magnitude above `2^127 - 1`.
pub fn add(a: Frac, b: Frac) -> Result<Frac, WideFrac>
    ensures { result ≡ ok_or (sum_of a b) (record {}) }
{
    let divisor = gcd(a.den, b.den);
    let part = quotient(a.den, divisor);
    let left = product(a.num, quotient(b.den, divisor) as i128)?;
    let right = product(b.num, part as i128)?;
    let top = sum(left, right)?;
    let bottom = product(part as i128, b.den as i128)?.unsigned_abs();
    // What is common to the sum and the denominator divides the divisor too.
    let common = gcd(top.unsigned_abs(), divisor);
    Ok(Frac {
        num: share(top, common),
        den: quotient(bottom, common),
    })
}

/// The difference: the sum of `a` and the negation of `b`.
pub fn sub(a: Frac, b: Frac) -> Result<Frac, WideFrac>
    ensures { result ≡ ok_or (difference_of a b) (record {}) }
{
    add(a, negation(b))
}

/// The product. Each numerator and the other denominator are first divided by their greatest common divisor. It is
/// `WideFrac` exactly where the product of the numerators or of the denominators then has a magnitude above
/// `2^127 - 1`.
pub fn mul(a: Frac, b: Frac) -> Result<Frac, WideFrac>
    ensures { result ≡ ok_or (product_of a b) (record {}) }
{
    let first = gcd(a.num.unsigned_abs(), b.den);
    let second = gcd(b.num.unsigned_abs(), a.den);
    let num = product(share(a.num, first), share(b.num, second))?;
    let den = product(
        quotient(a.den, second) as i128,
        quotient(b.den, first) as i128,
    )?;
    Ok(Frac {
        num,
        den: den.unsigned_abs(),
    })
}

/// The quotient: the product of `a` and the reciprocal of `b`.
pub fn div(a: Frac, b: Frac) -> Result<Frac, WideFrac>
    requires { b.num ≢ pos 0 }
    ensures { result ≡ ok_or (quotient_of a b) (record {}) }
{
    mul(a, reciprocal_of(b))
}

/// `-a`.
pub fn negation(a: Frac) -> Frac
    ensures { result ≡ negated a }
{
    Frac {
        num: -a.num,
        den: a.den,
    }
}

fn reciprocal_of(a: Frac) -> Frac
    requires { a.num ≢ pos 0 }
    ensures { result ≡ reciprocal a }
{
    let den = a.num.unsigned_abs();
    if a.num < 0 {
        Frac {
            num: -(a.den as i128),
            den,
        }
    } else {
        Frac {
            num: a.den as i128,
            den,
        }
    }
}
