//! The spelling of whole numbers.
ghost use Rattle.std.specs.Prelude.{◌≡◌, ◌+◌, ◌*◌, ◌^◌, ◌<◌, ◌≤◌, ◌≢◌, ◌-◌, ℕ, length, ℤ, [], ◌∷◌, ◌&&◌, ◌==◌, nat_lt};
ghost use Rattle.std.specs.Prelude.{slice_index, FitsSigned, IfSome, IfNone};
ghost use Rattle.std.specs.Int.{w64};
ghost use Rattle.std.specs.Fmt.{decimal, signed_decimal};
ghost use Rattle.std.specs.Char.{is_ascii_digit};
ghost use Rattle.std.specs.List.{list_all};
ghost use Rattle.std.specs.Str.Parse.{AllDigits, digits_value};
ghost use Rattle.bl_text.specs.Numbers.{numeral_up_to, short_number};

/// The value of decimal digits.
fn digits_value(digits: &[u8]) -> u64
    requires digits { AllDigits 10 digits.now }
    requires fits { length digits.now ≤ 19 }
    ensures { result ≡ digits_value 10 digits.now }
{
    let mut value = 0u64;
    for digit in digits {
        value = 10 * value + u64::from(*digit - b'0');
    }
    value
}

fn are_digits(bytes: &[u8]) -> bool
    ensures { result ≡ list_all is_ascii_digit bytes.now }
{
    bytes.iter().all(|byte| byte.is_ascii_digit())
}

fn numeral_up_to(most: usize, digits: &[u8]) -> Option<u64>
    requires { most ≤ 19 }
    ensures value { result ≡ numeral_up_to most digits.now }
    ensures small { most ≤ 16 → IfSome result (λ n. n < 10 ^ 16) }
{
    if digits.is_empty() || digits.len() > most || !are_digits(digits) {
        return None;
    }
    Some(digits_value(digits))
}

/// Whether a `0` stands before further digits.
fn has_leading_zero(digits: &[u8]) -> bool
    ensures { result ≡ (nat_lt 1 (length digits.now) && slice_index digits.now 0 == 48) }
{
    digits.len() > 1 && digits[0] == b'0'
}

/// The value of one digit or more without a leading zero, but for `0` itself.
fn plain_numeral(digits: &[u8]) -> Option<u64>
    ensures some { IfSome result (λ n. (n < 10 ^ 19) × (digits.now ≡ decimal n)) }
    ensures none { IfNone result ((n : ℕ) → n < 10 ^ 19 → digits.now ≢ decimal n) }
{
    if has_leading_zero(digits) {
        return None;
    }
    numeral_up_to(19, digits)
}

/// The number that these digits spell behind a `-`.
fn negative_number(digits: &[u8]) -> Option<i64>
    ensures some { IfSome result (λ n. 45 ∷ digits.now ≡ signed_decimal n) }
    ensures none { IfNone result ((n : ℤ) → FitsSigned w64 n → 45 ∷ digits.now ≢ signed_decimal n) }
{
    let magnitude = plain_numeral(digits)?;
    if magnitude == 0 || magnitude > 1 << 63 {
        return None;
    }
    Some(-1 - (magnitude - 1) as i64)
}

/// The number that these digits spell, before which no `-` stands.
fn unsigned_number(digits: &[u8]) -> Option<i64>
    requires { slice_index digits.now 0 ≢ 45 }
    ensures some { IfSome result (λ n. digits.now ≡ signed_decimal n) }
    ensures none { IfNone result ((n : ℤ) → FitsSigned w64 n → digits.now ≢ signed_decimal n) }
{
    let value = plain_numeral(digits)?;
    if value > i64::MAX as u64 {
        return None;
    }
    Some(value as i64)
}

/// A whole number of 64 bits in its plain decimal spelling: `-` only before a nonzero number, no leading zero.
/// `None` exactly where no such number is spelled so.
pub fn plain_number(field: &[u8]) -> Option<i64>
    ensures some { IfSome result (λ n. field.now ≡ signed_decimal n) }
    ensures none { IfNone result ((n : ℤ) → FitsSigned w64 n → field.now ≢ signed_decimal n) }
{
    match field {
        [b'-', digits @ ..] => negative_number(digits),
        _ => unsigned_number(field),
    }
}

/// An optional `-` and then one to sixteen decimal digits; `None` exactly where the field isn't that.
pub fn short_number(field: &[u8]) -> Option<i64>
    ensures { result ≡ short_number field.now }
{
    match field {
        [b'-', digits @ ..] => Some(-(numeral_up_to(16, digits)? as i64)),
        _ => Some(numeral_up_to(16, field)? as i64),
    }
}
