//! The reader of a line.
ghost use Rattle.std.specs.Prelude.{◌≡◌, ◌↔◌, IfOk, IsTrue};
ghost use Rattle.bl_certline.specs.Fields.{Finds};
ghost use Rattle.bl_certline.specs.Lines.{IndicesRise, IsCanonical, IsSpelled, PairsRise};
ghost use Rattle.bl_certline.specs.LineValues.{line_of_words};
ghost use Rattle.bl_certline.specs.SplitWords.{split_words};

use crate::body::line_by;
use crate::form::form_of;
use crate::line::CertLine;
use crate::words::{first_word, split_words};
use std::alloc::{AllocError, Global};

#[tactic(auto, unfolding(crate::specs::LineValues::line_of_words))]
fn line_of(alloc: Global, bytes: &[u8]) -> Result<Option<CertLine>, AllocError>
    ensures { IfOk result (λ line. line ≡ line_of_words (split_words bytes.now)) }
{
    let Some((word, words)) = first_word(split_words(bytes)) else {
        return Ok(None);
    };
    match form_of(word) {
        Some(form) => line_by(alloc, form, words),
        None => Ok(None),
    }
}

/// The well-formed line whose spelling the bytes are; the line feed isn't among them. The indices of its pairs may
/// stand in any order, so that a checker can tell a line of another form from one whose indices don't rise.
///
/// One pass over the bytes, and no memory but for the line's lists.
pub fn read_spelled(alloc: Global, bytes: &[u8]) -> Result<Option<CertLine>, AllocError>
    ensures { IfOk result (Finds (IsSpelled bytes.now)) }
{
    line_of(alloc, bytes)
}

/// The canonical line whose spelling the bytes are; the line feed isn't among them.
pub fn read_line(alloc: Global, bytes: &[u8]) -> Result<Option<CertLine>, AllocError>
    ensures { IfOk result (Finds (IsCanonical bytes.now)) }
{
    let Some(line) = read_spelled(alloc, bytes)? else {
        return Ok(None);
    };
    Ok(pairs_rise(&line).then_some(line))
}

/// Whether the indices of the line's pairs rise, as they do in a line without pairs.
pub fn pairs_rise(line: &CertLine) -> bool
    ensures { IsTrue result ↔ PairsRise line.now }
{
    match line {
        CertLine::Proof { mult, .. } | CertLine::Close { mult, .. } => {
            indices_rise(mult.as_slice())
        }
        CertLine::Unit { pairs } => indices_rise(pairs.as_slice()),
        _ => true,
    }
}

fn indices_rise(pairs: &[(i64, i64)]) -> bool
    ensures { IsTrue result ↔ IndicesRise pairs.now }
{
    for place in 1..pairs.len() {
        if pairs[place - 1].0 >= pairs[place].0 {
            return false;
        }
    }
    true
}
