//! The writer of a line.
#![tactic(auto, using(crate::proofs::Kept::keeps_behind, crate::proofs::Kept::keeps_same))]

ghost use Rattle.std.specs.Prelude.{◌≡◌, [], ◌∷◌, ◌++◌, OnErr, OnOk};
ghost use Rattle.std.specs.Fmt.{signed_decimal};
ghost use Rattle.bl_certline.specs.Fields.{pair_word};
ghost use Rattle.bl_certline.specs.Lines.{item_word, sense_word, spelling, value_mark};
ghost use Rattle.bl_certline.specs.Spelled.{Keeps};
ghost use Rattle.bl_certline.specs.Spelled.{area_text, behind, best_text, close_head_text, close_text, headed};
ghost use Rattle.bl_certline.specs.Spelled.{items_text, line_text, numbered, numbers_text, pairs_text, proof_text};
ghost use Rattle.bl_certline.specs.Spelled.{sense_text, side_text, sides_text, split_text, tight_text, unit_text};

use crate::line::{CertLine, TightItem};
use bl_num::put_whole;
use std::alloc::AllocError;

fn put_text(into: &mut Vec<u8>, text: &str) -> Result<(), AllocError>
    ensures ok { OnOk result (into.new.items ≡ into.old.items ++ text.now) }
    ensures err { OnErr result (Keeps into.old.items into.new.items) }
{
    into.extend_from_slice(text.as_bytes())
}

fn put_number(into: &mut Vec<u8>, number: i64) -> Result<(), AllocError>
    ensures ok { OnOk result (into.new.items ≡ into.old.items ++ behind (signed_decimal number)) }
    ensures err { OnErr result (Keeps into.old.items into.new.items) }
{
    put_text(into, " ")?;
    put_whole(into, i128::from(number))
}

fn put_numbers(into: &mut Vec<u8>, numbers: &[i64]) -> Result<(), AllocError>
    ensures ok { OnOk result (into.new.items ≡ into.old.items ++ numbers_text numbers.now) }
    ensures err { OnErr result (Keeps into.old.items into.new.items) }
{
    for number in numbers {
        put_number(into, *number)?;
    }
    Ok(())
}

fn put_pair(into: &mut Vec<u8>, pair: (i64, i64)) -> Result<(), AllocError>
    ensures ok { OnOk result (into.new.items ≡ into.old.items ++ behind (pair_word pair)) }
    ensures err { OnErr result (Keeps into.old.items into.new.items) }
{
    put_number(into, pair.0)?;
    put_text(into, ":")?;
    put_whole(into, i128::from(pair.1))
}

fn put_pairs(into: &mut Vec<u8>, pairs: &[(i64, i64)]) -> Result<(), AllocError>
    ensures ok { OnOk result (into.new.items ≡ into.old.items ++ pairs_text pairs.now) }
    ensures err { OnErr result (Keeps into.old.items into.new.items) }
{
    for pair in pairs {
        put_pair(into, *pair)?;
    }
    Ok(())
}

fn put_side(into: &mut Vec<u8>, side: (i64, i64)) -> Result<(), AllocError>
    ensures ok { OnOk result (into.new.items ≡ into.old.items ++ side_text side) }
    ensures err { OnErr result (Keeps into.old.items into.new.items) }
{
    put_number(into, side.0)?;
    put_number(into, side.1)
}

fn put_sides(into: &mut Vec<u8>, sides: &[(i64, i64)]) -> Result<(), AllocError>
    ensures ok { OnOk result (into.new.items ≡ into.old.items ++ sides_text sides.now) }
    ensures err { OnErr result (Keeps into.old.items into.new.items) }
{
    for side in sides {
        put_side(into, *side)?;
    }
    Ok(())
}

fn put_item(into: &mut Vec<u8>, item: TightItem) -> Result<(), AllocError>
    ensures ok { OnOk result (into.new.items ≡ into.old.items ++ behind (item_word item)) }
    ensures err { OnErr result (Keeps into.old.items into.new.items) }
{
    let (letter, place) = match item {
        TightItem::Row(place) => (" r", place),
        TightItem::Upper(place) => (" u", place),
        TightItem::Lower(place) => (" l", place),
        TightItem::Cut(place) => (" c", place),
    };
    put_text(into, letter)?;
    put_whole(into, i128::from(place))
}

fn put_items(into: &mut Vec<u8>, items: &[TightItem]) -> Result<(), AllocError>
    ensures ok { OnOk result (into.new.items ≡ into.old.items ++ items_text items.now) }
    ensures err { OnErr result (Keeps into.old.items into.new.items) }
{
    for item in items {
        put_item(into, *item)?;
    }
    Ok(())
}

fn put_area(into: &mut Vec<u8>, sides: &[(i64, i64)]) -> Result<(), AllocError>
    ensures ok { OnOk result (into.new.items ≡ into.old.items ++ area_text sides.now) }
    ensures err { OnErr result (Keeps into.old.items into.new.items) }
{
    put_text(into, "box")?;
    put_sides(into, sides)
}

fn put_tight(into: &mut Vec<u8>, items: &[TightItem]) -> Result<(), AllocError>
    ensures ok { OnOk result (into.new.items ≡ into.old.items ++ tight_text items.now) }
    ensures err { OnErr result (Keeps into.old.items into.new.items) }
{
    put_text(into, "tight")?;
    put_items(into, items)
}

fn put_unit(into: &mut Vec<u8>, pairs: &[(i64, i64)]) -> Result<(), AllocError>
    ensures ok { OnOk result (into.new.items ≡ into.old.items ++ unit_text pairs.now) }
    ensures err { OnErr result (Keeps into.old.items into.new.items) }
{
    put_text(into, "unit")?;
    put_pairs(into, pairs)
}

/// A word, and numbers behind it.
fn put_headed(into: &mut Vec<u8>, word: &str, numbers: &[i64]) -> Result<(), AllocError>
    ensures ok { OnOk result (into.new.items ≡ into.old.items ++ headed word.now numbers.now) }
    ensures err { OnErr result (Keeps into.old.items into.new.items) }
{
    put_text(into, word)?;
    put_numbers(into, numbers)
}

fn sense_word(maximise: bool) -> &'static str
    ensures { result.now ≡ sense_word maximise }
{
    if maximise { "max" } else { "min" }
}

fn value_mark(value_row: bool) -> &'static str
    ensures { result.now ≡ value_mark value_row }
{
    if value_row { "v" } else { "-" }
}

/// What stands before the cuts of a leaf.
#[tactic(auto, unfolding(crate::specs::Spelled::close_head_text))]
fn put_close_head(
    into: &mut Vec<u8>,
    den: i64,
    value_row: bool,
    count: i64,
) -> Result<(), AllocError>
    ensures ok { OnOk result (into.new.items ≡ into.old.items ++ close_head_text den value_row count) }
    ensures err { OnErr result (Keeps into.old.items into.new.items) }
{
    put_text(into, "close")?;
    put_number(into, den)?;
    put_text(into, " ")?;
    put_text(into, value_mark(value_row))?;
    put_number(into, count)
}

/// A number behind a word, and pairs behind it.
fn put_proof(into: &mut Vec<u8>, den: i64, mult: &[(i64, i64)]) -> Result<(), AllocError>
    ensures ok { OnOk result (into.new.items ≡ into.old.items ++ proof_text den mult.now) }
    ensures err { OnErr result (Keeps into.old.items into.new.items) }
{
    put_text(into, "proof")?;
    put_number(into, den)?;
    put_pairs(into, mult)
}

fn put_best(into: &mut Vec<u8>, value: i64, response: &[i64]) -> Result<(), AllocError>
    ensures ok { OnOk result (into.new.items ≡ into.old.items ++ best_text value response.now) }
    ensures err { OnErr result (Keeps into.old.items into.new.items) }
{
    put_text(into, "best")?;
    put_number(into, value)?;
    put_numbers(into, response)
}

fn put_sense(into: &mut Vec<u8>, maximise: bool) -> Result<(), AllocError>
    ensures ok { OnOk result (into.new.items ≡ into.old.items ++ sense_text maximise) }
    ensures err { OnErr result (Keeps into.old.items into.new.items) }
{
    put_text(into, "sense ")?;
    put_text(into, sense_word(maximise))
}

fn put_split(into: &mut Vec<u8>, column: i64, place: i64) -> Result<(), AllocError>
    ensures ok { OnOk result (into.new.items ≡ into.old.items ++ split_text column place) }
    ensures err { OnErr result (Keeps into.old.items into.new.items) }
{
    put_text(into, "split")?;
    put_number(into, column)?;
    put_number(into, place)
}

/// A word, and a number behind it.
fn put_numbered(into: &mut Vec<u8>, word: &str, number: i64) -> Result<(), AllocError>
    ensures ok { OnOk result (into.new.items ≡ into.old.items ++ numbered word.now number) }
    ensures err { OnErr result (Keeps into.old.items into.new.items) }
{
    put_text(into, word)?;
    put_number(into, number)
}

/// The words of a leaf that is closed.
fn put_close(
    into: &mut Vec<u8>,
    head: (i64, bool, i64),
    cuts: &[i64],
    mult: &[(i64, i64)],
) -> Result<(), AllocError>
    ensures ok { OnOk result (into.new.items ≡ into.old.items ++ close_text head.0 head.1 head.2 cuts.now mult.now) }
    ensures err { OnErr result (Keeps into.old.items into.new.items) }
{
    let (den, value_row, count) = head;
    put_close_head(into, den, value_row, count)?;
    put_numbers(into, cuts)?;
    put_pairs(into, mult)
}

/// The words of a line, with one space between them.
#[tactic(auto, unfolding(crate::specs::Spelled::line_text))]
fn put_words(into: &mut Vec<u8>, line: &CertLine) -> Result<(), AllocError>
    ensures ok { OnOk result (into.new.items ≡ into.old.items ++ line_text line.now) }
    ensures err { OnErr result (Keeps into.old.items into.new.items) }
{
    match line {
        CertLine::Version { number } => put_numbered(into, "mibs-certificate", *number),
        CertLine::Sense { maximise } => put_sense(into, *maximise),
        CertLine::StatesOptimal { value } => put_numbered(into, "states optimal", *value),
        CertLine::StatesInfeasible => put_text(into, "states infeasible"),
        CertLine::Point { values } => put_headed(into, "point", values.as_slice()),
        CertLine::Entries { count } => put_numbered(into, "entries", *count),
        CertLine::EntryHead { link } => put_headed(into, "entry", link.as_slice()),
        CertLine::Best { value, response } => put_best(into, *value, response.as_slice()),
        CertLine::NoAnswer => put_text(into, "none"),
        CertLine::Split { column, at } => put_split(into, *column, *at),
        CertLine::Proof { den, mult } => put_proof(into, *den, mult.as_slice()),
        CertLine::CutCount { count } => put_numbered(into, "cuts", *count),
        CertLine::CutHead => put_text(into, "cut"),
        CertLine::Area { sides } => put_area(into, sides.as_slice()),
        CertLine::TightList { items } => put_tight(into, items.as_slice()),
        CertLine::Inverse { den } => put_numbered(into, "inverse", *den),
        CertLine::Unit { pairs } => put_unit(into, pairs.as_slice()),
        CertLine::At { values } => put_headed(into, "at", values.as_slice()),
        CertLine::Response { values } => put_headed(into, "response", values.as_slice()),
        CertLine::TreeHead => put_text(into, "tree"),
        CertLine::Close {
            den,
            value_row,
            count,
            cuts,
            mult,
        } => put_close(
            into,
            (*den, *value_row, *count),
            cuts.as_slice(),
            mult.as_slice(),
        ),
        CertLine::End => put_text(into, "end"),
    }
}

fn put_ended(into: &mut Vec<u8>, line: &CertLine) -> Result<(), AllocError>
    ensures ok { OnOk result (into.new.items ≡ into.old.items ++ (spelling line.now ++ 10 ∷ [])) }
    ensures err { OnErr result (Keeps into.old.items into.new.items) }
{
    put_words(into, line)?;
    put_text(into, "\n")
}

/// Appends the line's one spelling and a line feed.
///
/// Any line is written. The reader takes it back where it is canonical: its numbers within their limits, its counts
/// not negative and those of what it lists, no multiplier 0, and the indices of its pairs rising. An `Err`
/// changes nothing.
pub fn put_line(into: &mut Vec<u8>, line: &CertLine) -> Result<(), AllocError>
    ensures ok { OnOk result (into.new.items ≡ into.old.items ++ (spelling line.now ++ 10 ∷ [])) }
    ensures err { OnErr result (into.new.items ≡ into.old.items) }
{
    let before = into.len();
    let written = put_ended(into, line);
    if written.is_err() {
        into.truncate(before);
    }
    written
}
