//! The parts of a number's text.
ghost use Rattle.std.specs.Prelude.{◌≡◌, position};
ghost use Rattle.std.specs.List.{before_first, after_first};
ghost use Rattle.std.specs.Str.Parse.{starts_with_minus, without_leading_sign};
ghost use Rattle.bl_num.specs.Numbers.{parts_of, is_mark, is_point, is_numeral, is_number, are_digits, mantissa_of};
ghost use Rattle.bl_num.specs.Numbers.{exponent_of};

use std::marker::Model;

/// The parts of a number: its sign, the digits before its point and behind it, and its exponent with its own sign.
/// The exponent is `0` where the text has none.
#[derive(Drop)]
pub(crate) struct Parts<'a> {
    pub(crate) negative: bool,
    pub(crate) whole: &'a [u8],
    pub(crate) fraction: &'a [u8],
    pub(crate) exponent: &'a [u8],
}

impl<'a> Model for Parts<'a> {
    ghost use Rattle.bl_num.specs.Numbers.{Parts as NumberParts};

    ghost Value = { NumberParts };

    ghost view = { λ p. record {
      negative = p.negative;
      whole = p.whole.now;
      fraction = p.fraction.now;
      exponent = p.exponent.now;
    } };
}

/// The text behind its sign.
pub(crate) fn without_sign(bytes: &[u8]) -> &[u8]
    ensures { result.now ≡ without_leading_sign bytes.now }
{
    match bytes {
        [b'-' | b'+', body @ ..] => body,
        _ => bytes,
    }
}

/// Whether the text begins with `-`.
pub(crate) fn starts_with_minus(bytes: &[u8]) -> bool
    ensures { result ≡ starts_with_minus bytes.now }
{
    matches!(bytes, [b'-', ..])
}

fn is_mark(byte: u8) -> bool
    ensures { result ≡ is_mark byte }
{
    byte == b'e' || byte == b'E'
}

fn first_mark(body: &[u8]) -> Option<usize>
    ensures { result ≡ position is_mark body.now }
{
    body.iter().position(|byte| is_mark(*byte))
}

fn first_point(mantissa: &[u8]) -> Option<usize>
    ensures { result ≡ position is_point mantissa.now }
{
    mantissa.iter().position(|byte| *byte == b'.')
}

/// What stands before the exponent's mark and what behind it.
fn split_exponent(body: &[u8]) -> (&[u8], &[u8])
    ensures mantissa { result.0.now ≡ mantissa_of body.now }
    ensures exponent { result.1.now ≡ exponent_of body.now }
{
    match first_mark(body) {
        Some(at) => (&body[..at], &body[at + 1..]),
        None => (body, b"0"),
    }
}

/// The digits before the point and behind it.
fn split_point(mantissa: &[u8]) -> (&[u8], &[u8])
    ensures whole { result.0.now ≡ before_first is_point mantissa.now }
    ensures fraction { result.1.now ≡ after_first is_point mantissa.now }
{
    match first_point(mantissa) {
        Some(at) => (&mantissa[..at], &mantissa[at + 1..]),
        None => (mantissa, &[]),
    }
}

/// The parts of a text, which are those of a number only where `is_number` holds of them.
#[tactic(auto, unfolding(crate::specs::Numbers::parts_of))]
pub(crate) fn parts_of(bytes: &[u8]) -> Parts<'_>
    ensures { result ≡ parts_of bytes.now }
{
    let (mantissa, exponent) = split_exponent(without_sign(bytes));
    let (whole, fraction) = split_point(mantissa);
    Parts {
        negative: starts_with_minus(bytes),
        whole,
        fraction,
        exponent,
    }
}

fn are_digits(bytes: &[u8]) -> bool
    ensures { result ≡ are_digits bytes.now }
{
    bytes.iter().all(|byte| byte.is_ascii_digit())
}

fn is_numeral(bytes: &[u8]) -> bool
    ensures { result ≡ is_numeral bytes.now }
{
    are_digits(bytes) && !bytes.is_empty()
}

/// Whether these are the parts of a number: at least one digit before the exponent, and at least one in it.
#[tactic(auto, unfolding(crate::specs::Numbers::is_number))]
pub(crate) fn is_number(parts: &Parts<'_>) -> bool
    ensures { result ≡ is_number parts.now }
{
    are_digits(parts.whole)
        && are_digits(parts.fraction)
        && !(parts.whole.is_empty() && parts.fraction.is_empty())
        && is_numeral(without_sign(parts.exponent))
}
