//! The magnitude of a number, as far as it is within the limit.
ghost use Rattle.std.specs.Prelude.{◌≡◌, ◌*◌, ◌^◌, ◌≤◌, true};
ghost use Rattle.std.specs.Option.{option_map};
ghost use Rattle.std.specs.Str.Parse.{AllDigits, digits_value, digits_value_after};
ghost use Rattle.bl_num.specs.Numbers.{is_number, magnitude_of};
ghost use Rattle.bl_num.specs.Capped.{capped, are_zeros, raised_magnitude, lowered_magnitude};

use crate::parts::{Parts, starts_with_minus, without_sign};
use bl_limits::MAX_WHOLE;

/// What stands for every number above the limit.
const ABOVE: u128 = MAX_WHOLE + 1;

/// Ten to this power is above the limit.
const POWER_ABOVE: u128 = 37;

/// The number that the digits write where they follow those of `front`.
fn number_after(front: u128, digits: &[u8]) -> u128
    requires front { front ≤ ABOVE }
    requires digits { AllDigits 10 digits.now }
    ensures { result ≡ capped (digits_value_after 10 front digits.now) }
{
    let mut number = front;
    for digit in digits {
        number = (number * 10 + u128::from(*digit - b'0')).min(ABOVE);
    }
    number
}

/// The number times ten to the power.
fn raised(number: u128, power: u128) -> u128
    requires { number ≤ ABOVE }
    ensures { result ≡ capped (number * 10 ^ power) }
{
    let mut raised = number;
    for _step in 0..power.min(POWER_ABOVE) {
        raised = (raised * 10).min(ABOVE);
    }
    raised
}

fn are_zeros(digits: &[u8]) -> bool
    ensures { result ≡ are_zeros digits.now }
{
    digits.iter().all(|digit| *digit == b'0')
}

/// The magnitude of a number times ten to the power, where that is whole: the point moves to the right.
fn raised_magnitude(whole: &[u8], fraction: &[u8], power: &[u8]) -> Option<u128>
    requires whole { AllDigits 10 whole.now }
    requires fraction { AllDigits 10 fraction.now }
    requires power { AllDigits 10 power.now }
    ensures { result ≡ option_map capped (raised_magnitude whole.now fraction.now (digits_value 10 power.now)) }
{
    let power = number_after(0, power);
    let moved = power.min(fraction.len() as u128);
    let (front, back) = fraction.split_at(moved as usize);
    if !are_zeros(back) {
        return None;
    }
    let number = number_after(number_after(0, whole), front);
    Some(raised(number, power - moved))
}

/// The magnitude of a number divided by ten to the power, where that is whole: the point moves to the left.
fn lowered_magnitude(whole: &[u8], fraction: &[u8], power: &[u8]) -> Option<u128>
    requires whole { AllDigits 10 whole.now }
    requires fraction { AllDigits 10 fraction.now }
    requires power { AllDigits 10 power.now }
    ensures { result ≡ option_map capped (lowered_magnitude whole.now fraction.now (digits_value 10 power.now)) }
{
    let power = number_after(0, power);
    let moved = power.min(whole.len() as u128);
    let (front, back) = whole.split_at(whole.len() - moved as usize);
    if !are_zeros(back) || !are_zeros(fraction) {
        return None;
    }
    Some(number_after(0, front))
}

/// The magnitude of a number, where it is whole: what is above the limit is `MAX_WHOLE + 1`.
#[tactic(auto, unfolding(crate::specs::Numbers::magnitude_of))]
pub(crate) fn magnitude(parts: &Parts<'_>) -> Option<u128>
    requires { is_number parts.now ≡ true }
    ensures { result ≡ option_map capped (magnitude_of parts.now) }
{
    let power = without_sign(parts.exponent);
    if starts_with_minus(parts.exponent) {
        lowered_magnitude(parts.whole, parts.fraction, power)
    } else {
        raised_magnitude(parts.whole, parts.fraction, power)
    }
}
