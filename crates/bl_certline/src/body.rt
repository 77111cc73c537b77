//! The line of a form, read from the words behind its first.
ghost use Rattle.std.specs.Prelude.{◌≡◌, IfOk};
ghost use Rattle.bl_certline.specs.LineValues.{best_line, close_head, close_line, cuts_at, den_at, line_by, only_count};
ghost use Rattle.bl_certline.specs.LineValues.{only_den, proof_line, sense_line, sense_of, split_line, statement_of};
ghost use Rattle.bl_certline.specs.LineValues.{states_line, value_row_of};

use crate::form::{Form, is_word};
use crate::line::CertLine;
use crate::values::{
    is_proof_number, items_of, multipliers_of, number_at, numbers_at, numbers_of, only_number,
    sides_of,
};
use crate::words::{Words, first_word, is_empty};
use bl_raw::Listed;
use std::alloc::{AllocError, Global};

fn sense_of(word: &[u8]) -> Option<bool>
    ensures { result ≡ sense_of word.now }
{
    if is_word(word, "max") {
        Some(true)
    } else if is_word(word, "min") {
        Some(false)
    } else {
        None
    }
}

fn value_row_of(word: &[u8]) -> Option<bool>
    ensures { result ≡ value_row_of word.now }
{
    if is_word(word, "v") {
        Some(true)
    } else if is_word(word, "-") {
        Some(false)
    } else {
        None
    }
}

/// The only word, a number that isn't negative.
#[tactic(auto, unfolding(crate::specs::LineValues::only_count))]
fn only_count(words: Words<'_>) -> Option<i64>
    ensures { result ≡ only_count words.entry }
{
    let count = only_number(words)?;
    (count >= 0).then_some(count)
}

/// A number within the limit of proofs, and the words behind it.
#[tactic(auto, unfolding(crate::specs::LineValues::den_at))]
fn den_at(words: Words<'_>) -> Option<(i64, Words<'_>)>
    ensures { result ≡ den_at words.entry }
{
    let (den, words) = number_at(words)?;
    is_proof_number(den).then_some((den, words))
}

#[tactic(auto, unfolding(crate::specs::LineValues::only_den))]
fn only_den(words: Words<'_>) -> Option<i64>
    ensures { result ≡ only_den words.entry }
{
    let (den, words) = den_at(words)?;
    is_empty(&words).then_some(den)
}

#[tactic(auto, unfolding(crate::specs::LineValues::sense_line))]
fn sense_line(words: Words<'_>) -> Option<CertLine>
    ensures { result ≡ sense_line words.entry }
{
    let (word, words) = first_word(words)?;
    let maximise = sense_of(word)?;
    is_empty(&words).then_some(CertLine::Sense { maximise })
}

fn statement_of(word: &[u8], words: Words<'_>) -> Option<CertLine>
    ensures { result ≡ statement_of word.now words.entry }
{
    if is_word(word, "optimal") {
        let value = only_number(words)?;
        return Some(CertLine::StatesOptimal { value });
    }
    (is_word(word, "infeasible") && is_empty(&words)).then_some(CertLine::StatesInfeasible)
}

#[tactic(auto, unfolding(crate::specs::LineValues::states_line))]
fn states_line(words: Words<'_>) -> Option<CertLine>
    ensures { result ≡ states_line words.entry }
{
    let (word, words) = first_word(words)?;
    statement_of(word, words)
}

#[tactic(auto, unfolding(crate::specs::LineValues::split_line))]
fn split_line(words: Words<'_>) -> Option<CertLine>
    ensures { result ≡ split_line words.entry }
{
    let (column, words) = number_at(words)?;
    let at = only_number(words)?;
    Some(CertLine::Split { column, at })
}

#[tactic(auto, unfolding(crate::specs::LineValues::best_line))]
fn best_line(alloc: Global, words: Words<'_>) -> Result<Option<CertLine>, AllocError>
    ensures { IfOk result (λ line. line ≡ best_line words.entry) }
{
    let Some((value, words)) = number_at(words) else {
        return Ok(None);
    };
    let Some(response) = numbers_of(alloc, words)? else {
        return Ok(None);
    };
    Ok(Some(CertLine::Best { value, response }))
}

#[tactic(auto, unfolding(crate::specs::LineValues::proof_line))]
fn proof_line(alloc: Global, words: Words<'_>) -> Result<Option<CertLine>, AllocError>
    ensures { IfOk result (λ line. line ≡ proof_line words.entry) }
{
    let Some((den, words)) = den_at(words) else {
        return Ok(None);
    };
    let Some(mult) = multipliers_of(alloc, words)? else {
        return Ok(None);
    };
    Ok(Some(CertLine::Proof { den, mult }))
}

/// What stands before the cuts of a leaf, and the words behind it.
#[tactic(auto, unfolding(crate::specs::LineValues::close_head))]
fn close_head(words: Words<'_>) -> Option<(i64, bool, i64, Words<'_>)>
    ensures { result ≡ close_head words.entry }
{
    let (den, words) = den_at(words)?;
    let (mark, words) = first_word(words)?;
    let value_row = value_row_of(mark)?;
    let (count, words) = number_at(words)?;
    Some((den, value_row, count, words))
}

/// So many cuts, and the words behind them.
fn cuts_at<'a>(
    alloc: Global,
    count: i64,
    words: Words<'a>,
) -> Result<Option<(Listed<i64>, Words<'a>)>, AllocError>
    ensures { IfOk result (λ read. read ≡ cuts_at count words.entry) }
{
    if count < 0 {
        return Ok(None);
    }
    numbers_at(alloc, count as u64, words)
}

#[tactic(auto, unfolding(crate::specs::LineValues::close_line))]
fn close_line(alloc: Global, words: Words<'_>) -> Result<Option<CertLine>, AllocError>
    ensures { IfOk result (λ line. line ≡ close_line words.entry) }
{
    let Some((den, value_row, count, words)) = close_head(words) else {
        return Ok(None);
    };
    let Some((cuts, words)) = cuts_at(alloc, count, words)? else {
        return Ok(None);
    };
    let Some(mult) = multipliers_of(alloc, words)? else {
        return Ok(None);
    };
    Ok(Some(CertLine::Close {
        den,
        value_row,
        count,
        cuts,
        mult,
    }))
}

/// The line of a form, where these are the words behind its first.
#[tactic(auto, unfolding(crate::specs::LineValues::line_by))]
pub(crate) fn line_by(
    alloc: Global,
    form: Form,
    words: Words<'_>,
) -> Result<Option<CertLine>, AllocError>
    ensures { IfOk result (λ line. line ≡ line_by form words.entry) }
{
    match form {
        Form::Version => Ok(only_number(words).map(|number| CertLine::Version { number })),
        Form::Sense => Ok(sense_line(words)),
        Form::States => Ok(states_line(words)),
        Form::Point => Ok(numbers_of(alloc, words)?.map(|values| CertLine::Point { values })),
        Form::Entries => Ok(only_count(words).map(|count| CertLine::Entries { count })),
        Form::Entry => Ok(numbers_of(alloc, words)?.map(|link| CertLine::EntryHead { link })),
        Form::Best => best_line(alloc, words),
        Form::NoAnswer => Ok(is_empty(&words).then_some(CertLine::NoAnswer)),
        Form::Split => Ok(split_line(words)),
        Form::Proof => proof_line(alloc, words),
        Form::Cuts => Ok(only_count(words).map(|count| CertLine::CutCount { count })),
        Form::Cut => Ok(is_empty(&words).then_some(CertLine::CutHead)),
        Form::Area => Ok(sides_of(alloc, words)?.map(|sides| CertLine::Area { sides })),
        Form::Tight => Ok(items_of(alloc, words)?.map(|items| CertLine::TightList { items })),
        Form::Inverse => Ok(only_den(words).map(|den| CertLine::Inverse { den })),
        Form::Multiples => Ok(multipliers_of(alloc, words)?.map(|pairs| CertLine::Unit { pairs })),
        Form::At => Ok(numbers_of(alloc, words)?.map(|values| CertLine::At { values })),
        Form::Response => Ok(numbers_of(alloc, words)?.map(|values| CertLine::Response { values })),
        Form::Tree => Ok(is_empty(&words).then_some(CertLine::TreeHead)),
        Form::Close => close_line(alloc, words),
        Form::End => Ok(is_empty(&words).then_some(CertLine::End)),
    }
}
