//! Readers of fields, which take no memory.
ghost use Rattle.std.specs.Prelude.{◌≡◌, ℕ, ◌<◌, ◌≤◌, ◌≢◌, position, length};
ghost use Rattle.std.specs.List.{before_first, after_first};
ghost use Rattle.bl_certline.specs.Fields.{Finds, IsNextLineFeed, IsPairField, IsWholeField};
ghost use Rattle.bl_certline.specs.FieldValues.{is_colon, nonzero_pair, number_of, pair_of};

use bl_text::plain_number;

/// The place of the first line feed at or behind `from`; `None` where there is none.
pub fn next_line(bytes: &[u8], from: usize) -> Option<usize>
    ensures { Finds (IsNextLineFeed bytes.now from) result }
{
    for place in from..bytes.len() {
        if bytes[place] == b'\n' {
            return Some(place);
        }
    }
    None
}

/// The number whose one spelling the field is: plain decimal of 64 bits, `-` only before a number below 0, no leading
/// zero. `None` where it is no such number's.
pub fn whole_field(field: &[u8]) -> Option<i64>
    ensures { Finds (IsWholeField field.now) result }
{
    number_of(field)
}

/// The pair `i:m` whose one spelling the field is, where `m` isn't 0. `None` where it is no such pair's.
pub fn pair_field(field: &[u8]) -> Option<(i64, i64)>
    ensures { Finds (IsPairField field.now) result }
{
    pair_of(field)
}

pub(crate) fn number_of(field: &[u8]) -> Option<i64>
    ensures { result ≡ number_of field.now }
{
    plain_number(field)
}

fn first_colon(field: &[u8]) -> Option<usize>
    ensures { result ≡ position is_colon field.now }
{
    field.iter().position(|byte| *byte == b':')
}

/// What stands before the first colon and what behind it, nothing where there is none.
fn split_colon(field: &[u8]) -> (&[u8], &[u8])
    ensures front { result.0.now ≡ before_first is_colon field.now }
    ensures back { result.1.now ≡ after_first is_colon field.now }
{
    match first_colon(field) {
        Some(at) => (&field[..at], &field[at + 1..]),
        None => (field, &[]),
    }
}

fn nonzero_pair(index: i64, number: i64) -> Option<(i64, i64)>
    ensures { result ≡ nonzero_pair index number }
{
    if number == 0 {
        None
    } else {
        Some((index, number))
    }
}

#[tactic(auto, unfolding(crate::specs::FieldValues::pair_of))]
pub(crate) fn pair_of(field: &[u8]) -> Option<(i64, i64)>
    ensures { result ≡ pair_of field.now }
{
    let (index, number) = split_colon(field);
    nonzero_pair(number_of(index)?, number_of(number)?)
}
