//! Numbers, pairs and marks behind the first word of a line.
ghost use Rattle.std.specs.Prelude.{◌≡◌, IfOk, OnOk};
ghost use Rattle.bl_certline.specs.LineValues.{each_of, is_proof_number, item_at, item_of, multiplier_of, number_at};
ghost use Rattle.bl_certline.specs.LineValues.{numbers_at, only_number, side_of, sides_of};
ghost use Rattle.std.specs.Option.{option_copied};
ghost use Rattle.bl_certline.specs.FieldValues.{number_of};

use crate::fields::{number_of, pair_of};
use crate::line::TightItem;
use crate::words::{Words, first_word, is_empty};
use bl_limits::MAX_PROOF_NUMBER;
use bl_raw::Listed;
use std::alloc::{AllocError, Global};

/// Whether a denominator or a multiplier is within its limit.
pub(crate) fn is_proof_number(number: i64) -> bool
    ensures { result ≡ is_proof_number number }
{
    number.unsigned_abs() <= MAX_PROOF_NUMBER.unsigned_abs()
}

#[tactic(auto, unfolding(crate::specs::LineValues::multiplier_of))]
fn multiplier_of(word: &[u8]) -> Option<(i64, i64)>
    ensures { result ≡ multiplier_of word.now }
{
    let pair = pair_of(word)?;
    is_proof_number(pair.1).then_some(pair)
}

fn item_at(letter: u8, place: i64) -> Option<TightItem>
    ensures { result ≡ item_at letter place }
{
    match letter {
        b'r' => Some(TightItem::Row(place)),
        b'u' => Some(TightItem::Upper(place)),
        b'l' => Some(TightItem::Lower(place)),
        b'c' => Some(TightItem::Cut(place)),
        _ => None,
    }
}

#[tactic(auto, unfolding(crate::specs::LineValues::item_of))]
fn item_of(word: &[u8]) -> Option<TightItem>
    ensures { result ≡ item_of word.now }
{
    match word {
        [] => None,
        [letter, digits @ ..] => item_at(*letter, number_of(digits)?),
    }
}

/// The first number, and the words behind it.
#[tactic(auto, unfolding(crate::specs::LineValues::number_at))]
pub(crate) fn number_at(words: Words<'_>) -> Option<(i64, Words<'_>)>
    ensures { result ≡ number_at words.entry }
{
    let (word, words) = first_word(words)?;
    Some((number_of(word)?, words))
}

/// The number that is the only word.
#[tactic(auto, unfolding(crate::specs::LineValues::only_number))]
pub(crate) fn only_number(words: Words<'_>) -> Option<i64>
    ensures { result ≡ only_number words.entry }
{
    let (number, words) = number_at(words)?;
    is_empty(&words).then_some(number)
}

/// The numbers that the words are.
pub(crate) fn numbers_of(alloc: Global, words: Words<'_>) -> Result<Option<Listed<i64>>, AllocError>
    ensures { IfOk result (λ numbers. numbers ≡ each_of number_of words.entry) }
{
    let mut numbers = Vec::new(alloc);
    for word in words {
        let Some(number) = number_of(word) else {
            return Ok(None);
        };
        numbers.push(number)?;
    }
    Ok(Some(Listed::new(numbers)))
}

/// The multipliers that the words are, each with its index.
pub(crate) fn multipliers_of(
    alloc: Global,
    words: Words<'_>,
) -> Result<Option<Listed<(i64, i64)>>, AllocError>
    ensures { IfOk result (λ pairs. pairs ≡ each_of multiplier_of words.entry) }
{
    let mut pairs = Vec::new(alloc);
    for word in words {
        let Some(pair) = multiplier_of(word) else {
            return Ok(None);
        };
        pairs.push(pair)?;
    }
    Ok(Some(Listed::new(pairs)))
}

/// The tight items that the words are.
pub(crate) fn items_of(
    alloc: Global,
    words: Words<'_>,
) -> Result<Option<Listed<TightItem>>, AllocError>
    ensures { IfOk result (λ items. items ≡ each_of item_of words.entry) }
{
    let mut items = Vec::new(alloc);
    for word in words {
        let Some(item) = item_of(word) else {
            return Ok(None);
        };
        items.push(item)?;
    }
    Ok(Some(Listed::new(items)))
}

/// Both sides of a column, where there are two words.
fn side_of(lo: &[u8], hi: Option<&[u8]>) -> Option<(i64, i64)>
    ensures { result ≡ side_of lo.now (option_copied hi.entry) }
{
    Some((number_of(lo)?, number_of(hi?)?))
}

/// Both sides for each column, two words for each.
pub(crate) fn sides_of(
    alloc: Global,
    words: Words<'_>,
) -> Result<Option<Listed<(i64, i64)>>, AllocError>
    ensures { IfOk result (λ sides. sides ≡ sides_of words.entry) }
{
    let mut words = words;
    let mut sides = Vec::new(alloc);
    while let Some(lo) = words.next() {
        let Some(side) = side_of(lo, words.next()) else {
            return Ok(None);
        };
        sides.push(side)?;
    }
    Ok(Some(Listed::new(sides)))
}

/// So many numbers, and the words behind them. No more memory is taken than the words need, whatever the count.
pub(crate) fn numbers_at<'a>(
    alloc: Global,
    count: u64,
    words: Words<'a>,
) -> Result<Option<(Listed<i64>, Words<'a>)>, AllocError>
    ensures { IfOk result (λ read. read ≡ numbers_at count words.entry) }
{
    let mut words = words;
    let mut numbers = Vec::new(alloc);
    for _place in 0..count {
        let Some((number, rest)) = number_at(words) else {
            return Ok(None);
        };
        numbers.push(number)?;
        words = rest;
    }
    Ok(Some((Listed::new(numbers), words)))
}
