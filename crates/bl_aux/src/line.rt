//! A line by itself.
ghost use Rattle.std.specs.Prelude.{◌≡◌, false, IfOk, IfSome};
ghost use Rattle.bl_num.specs.Numbers.{read_of};
ghost use Rattle.bl_text.specs.Fields.{fields_of};
ghost use Rattle.bl_aux.specs.Lines.{is_large, key_of, keyed, line_said, numbered, sized};

use crate::fault::AuxRule;
use crate::keys::{Key, is_unsupported, key_of};
use bl_limits::MAX_NUMBER;
use bl_num::{NumFault, read_whole};
use bl_text::split_field;

/// A key and its number.
#[derive(Clone, Copy)]
pub(crate) struct Entry {
    pub(crate) key: Key,
    pub(crate) number: i128,
}

/// What a line says by itself, which is nothing where it has no fields, or the rule that it breaks by itself.
#[tactic(auto, unfolding(crate::specs::Lines::said))]
pub(crate) fn read_line(line: &[u8]) -> Result<Option<Entry>, AuxRule>
    ensures said { result ≡ line_said (fields_of line.now) }
    ensures small { IfOk result (λ found. IfSome found (λ entry. is_large entry.key entry.number ≡ false)) }
{
    let Some((word, rest)) = split_field(line) else {
        return Ok(None);
    };
    if is_unsupported(word) {
        return Err(AuxRule::Unsupported);
    }
    let Some((number, rest)) = split_field(rest) else {
        return Err(AuxRule::BadKey);
    };
    if split_field(rest).is_some() {
        return Err(AuxRule::BadKey);
    }
    let entry = keyed_entry(word, number)?;
    Ok(Some(entry))
}

/// The entry of a line with these two fields.
fn keyed_entry(word: &[u8], number: &[u8]) -> Result<Entry, AuxRule>
    ensures said { result ≡ keyed (key_of word.now) number.now }
    ensures small { IfOk result (λ entry. is_large entry.key entry.number ≡ false) }
{
    match key_of(word) {
        Some(key) => numbered_entry(key, number),
        None => Err(AuxRule::BadKey),
    }
}

fn numbered_entry(key: Key, number: &[u8]) -> Result<Entry, AuxRule>
    ensures said { result ≡ numbered key (read_of number.now) }
    ensures small { IfOk result (λ entry. is_large entry.key entry.number ≡ false) }
{
    match read_whole(number) {
        Ok(number) => small_entry(key, number),
        Err(NumFault::NotNumber) => Err(AuxRule::BadNumber),
        Err(NumFault::NotWhole) => Err(AuxRule::NotWhole),
        Err(NumFault::TooLarge { negative: _ }) => Err(AuxRule::TooLarge),
    }
}

/// The entry, where the number isn't a cost above its limit.
fn small_entry(key: Key, number: i128) -> Result<Entry, AuxRule>
    ensures said { result ≡ sized key number }
    ensures small { IfOk result (λ entry. is_large entry.key entry.number ≡ false) }
{
    if matches!(key, Key::Lo) && number.unsigned_abs() > u128::from(MAX_NUMBER) {
        return Err(AuxRule::TooLarge);
    }
    Ok(Entry { key, number })
}
