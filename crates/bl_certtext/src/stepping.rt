//! The step over one line: whether it may stand where a part is expected, and what is expected then.
ghost use Rattle.std.specs.Prelude.{◌≡◌, ◌<◌, ◌↔◌, ◌∷◌, [], None, Some, IfOk, IsTrue, MatchOption};
ghost use Rattle.bl_terms.specs.Programs.{Program};
ghost use Rattle.bl_certtext.specs.Places.{IsAbove, SplitsAt, lower_count};
ghost use Rattle.bl_certtext.specs.Grammar.{IsStep, cuts_from, entries_from, high_of, low_of, parts_in, units_from};

use crate::part::{Following, Part};
use crate::places::{
    are_below, are_in_order, are_there, is_followers, is_leaf, is_link, is_lower, is_part,
    is_response_point, lower_count,
};
use crate::region::Region;
use bl_certline::CertLine;
use bl_model::{Bilevel, Listed};
use std::alloc::{AllocError, Global};

// ---- what is expected behind a count

fn entries_from(left: u64, last: Option<Listed<i64>>) -> Following
    ensures { parts_in result ≡ entries_from left last }
{
    if left == 0 {
        Following::One(Part::CutCount)
    } else {
        Following::One(Part::Entries { left, last })
    }
}

fn cuts_from(place: u64, count: u64) -> Part
    ensures { parts_in (Following.One result) ≡ cuts_from place count }
{
    if place < count {
        Part::Cuts { place, count }
    } else {
        Part::Head { cuts: count }
    }
}

fn units_from(left: usize, items: usize) -> Following
    ensures { parts_in result ≡ units_from left items }
{
    if left == 0 {
        Following::Two(Part::At, Part::Response)
    } else {
        Following::One(Part::Units { left, items })
    }
}

// ---- the lines that stand alone

fn version_step(line: &CertLine) -> Option<Following>
    ensures { (p : Program) → IsStep p Part.Version line.now result }
{
    let CertLine::Version { number } = line else {
        return None;
    };
    match *number {
        1 => Some(Following::One(Part::Statement)),
        2 => Some(Following::Two(Part::Sense, Part::Statement)),
        _ => None,
    }
}

fn sense_step(line: &CertLine) -> Option<Following>
    ensures { (p : Program) → IsStep p Part.Sense line.now result }
{
    match line {
        CertLine::Sense { .. } => Some(Following::Nothing),
        _ => None,
    }
}

fn statement_step(line: &CertLine) -> Option<Following>
    ensures { (p : Program) → IsStep p Part.Statement line.now result }
{
    match line {
        CertLine::StatesOptimal { .. } => Some(Following::Two(Part::Point, Part::EntryCount)),
        CertLine::StatesInfeasible => Some(Following::One(Part::EntryCount)),
        _ => None,
    }
}

fn point_step(model: &Bilevel, line: &CertLine) -> Option<Following>
    ensures { IsStep model.now Part.Point line.now result }
{
    match line {
        CertLine::Point { values } if model.in_box(values.as_slice()) => Some(Following::Nothing),
        _ => None,
    }
}

fn end_step(line: &CertLine) -> Option<Following>
    ensures { (p : Program) → IsStep p Part.End line.now result }
{
    match line {
        CertLine::End => Some(Following::Nothing),
        _ => None,
    }
}

// ---- cuts

fn cut_area_step(model: &Bilevel, place: u64, line: &CertLine) -> Option<Following>
    ensures { IsStep model.now (Part.CutArea place) line.now result }
{
    match line {
        CertLine::Area { sides } if is_part(model, sides.as_slice()) => {
            Some(Following::One(Part::Tight { place }))
        }
        _ => None,
    }
}

fn tight_step(model: &Bilevel, place: u64, line: &CertLine) -> Option<Following>
    ensures { IsStep model.now (Part.Tight place) line.now result }
{
    let CertLine::TightList { items } = line else {
        return None;
    };
    let items = items.as_slice();
    if !are_in_order(items) || !are_there(model, place as usize, items) {
        return None;
    }
    Some(Following::One(Part::Inverse { items: items.len() }))
}

fn inverse_step(model: &Bilevel, items: usize, line: &CertLine) -> Option<Following>
    ensures { IsStep model.now (Part.Inverse items) line.now result }
{
    match line {
        CertLine::Inverse { den } if 0 < *den => Some(units_from(model.lo().len(), items)),
        _ => None,
    }
}

fn at_step(model: &Bilevel, line: &CertLine) -> Option<Following>
    ensures { IsStep model.now Part.At line.now result }
{
    match line {
        CertLine::At { values } if model.in_box(values.as_slice()) => Some(Following::Nothing),
        _ => None,
    }
}

fn response_step(model: &Bilevel, line: &CertLine) -> Option<Following>
    ensures { IsStep model.now Part.Response line.now result }
{
    match line {
        CertLine::Response { values } if is_response_point(model, values.as_slice()) => {
            Some(Following::Nothing)
        }
        _ => None,
    }
}

fn unit_step(left: usize, items: usize, line: &CertLine) -> Option<Following>
    ensures { (p : Program) → IsStep p (Part.Units left items) line.now result }
{
    match line {
        CertLine::Unit { pairs } if are_below(items, pairs.as_slice()) => {
            Some(units_from(left.saturating_sub(1), items))
        }
        _ => None,
    }
}

fn cut_count_step(line: &CertLine) -> Option<Following>
    ensures { (p : Program) → IsStep p Part.CutCount line.now result }
{
    match line {
        CertLine::CutCount { count } => Some(Following::One(cuts_from(0, count.unsigned_abs()))),
        _ => None,
    }
}

fn cut_step(place: u64, count: u64, line: &CertLine) -> Option<Following>
    ensures { (p : Program) → IsStep p (Part.Cuts place count) line.now result }
{
    match line {
        CertLine::CutHead if place < count => Some(Following::Two(
            Part::CutArea { place },
            cuts_from(place + 1, count),
        )),
        _ => None,
    }
}

// ---- entries

fn entry_count_step(line: &CertLine) -> Option<Following>
    ensures { (p : Program) → IsStep p Part.EntryCount line.now result }
{
    match line {
        CertLine::Entries { count } => Some(entries_from(count.unsigned_abs(), None)),
        _ => None,
    }
}

/// Whether a link is above the one before it, where there is one.
fn is_above(last: &Option<Listed<i64>>, link: &[i64]) -> bool
    ensures { IsTrue result ↔ IsAbove last.now link.now }
{
    match last {
        Some(last) => is_lower(last.as_slice(), link),
        None => true,
    }
}

/// A link as a list of its own.
fn owned(alloc: Global, link: &[i64]) -> Result<Listed<i64>, AllocError>
    ensures { IfOk result (λ l. l ≡ link.now) }
{
    Ok(Listed::new(Vec::from_slice(alloc, link)?))
}

fn entry_step(
    alloc: Global,
    model: &Bilevel,
    left: u64,
    last: Option<Listed<i64>>,
    line: &CertLine,
) -> Result<Option<Following>, AllocError>
    ensures { IfOk result (IsStep model.now (Part.Entries left last) line.now) }
{
    let CertLine::EntryHead { link } = line else {
        return Ok(None);
    };
    let link = link.as_slice();
    if !is_link(model, link) || !is_above(&last, link) {
        return Ok(None);
    }
    let last = Some(owned(alloc, link)?);
    Ok(Some(behind_entry(left.saturating_sub(1), last)))
}

fn behind_entry(left: u64, last: Option<Listed<i64>>) -> Following
    ensures { parts_in result ≡ Part.Answer ∷ entries_from left last }
{
    if left == 0 {
        Following::Two(Part::Answer, Part::CutCount)
    } else {
        Following::Two(Part::Answer, Part::Entries { left, last })
    }
}

fn answer_step(
    alloc: Global,
    model: &Bilevel,
    line: &CertLine,
) -> Result<Option<Following>, AllocError>
    ensures { IfOk result (IsStep model.now Part.Answer line.now) }
{
    match line {
        CertLine::Best { response, .. } if is_response_point(model, response.as_slice()) => {}
        CertLine::NoAnswer => {}
        _ => return Ok(None),
    }
    let area = Region::root(alloc, model)?;
    Ok(Some(Following::One(Part::FollowerTree { area })))
}

// ---- trees

fn follower_tree_step(
    alloc: Global,
    model: &Bilevel,
    lower: usize,
    area: Region,
    line: &CertLine,
) -> Result<Option<Following>, AllocError>
    requires { lower ≡ lower_count model.now }
    ensures { IfOk result (IsStep model.now (Part.FollowerTree area) line.now) }
{
    match line {
        CertLine::Split { column, at } if is_followers(model, *column) => {
            follower_halves(alloc, area, *column, *at)
        }
        CertLine::Proof { mult, .. } if are_below(lower, mult.as_slice()) => {
            Ok(Some(Following::Nothing))
        }
        _ => Ok(None),
    }
}

fn follower_halves(
    alloc: Global,
    area: Region,
    column: i64,
    at: i64,
) -> Result<Option<Following>, AllocError>
    ensures { IfOk result (λ f. MatchOption f (¬ SplitsAt area column at) (λ f. SplitsAt area column at
        × (parts_in f ≡ Part.FollowerTree (low_of area column at) ∷ Part.FollowerTree (high_of area column at) ∷ []))) }
{
    let Some((low, high)) = area.halves(alloc, column, at)? else {
        return Ok(None);
    };
    Ok(Some(Following::Two(
        Part::FollowerTree { area: low },
        Part::FollowerTree { area: high },
    )))
}

fn tree_halves(
    alloc: Global,
    area: Region,
    cuts: u64,
    column: i64,
    at: i64,
) -> Result<Option<Following>, AllocError>
    ensures { IfOk result (λ f. MatchOption f (¬ SplitsAt area column at) (λ f. SplitsAt area column at
        × (parts_in f ≡ Part.Tree (low_of area column at) cuts ∷ Part.Tree (high_of area column at) cuts ∷ []))) }
{
    let Some((low, high)) = area.halves(alloc, column, at)? else {
        return Ok(None);
    };
    Ok(Some(Following::Two(
        Part::Tree { area: low, cuts },
        Part::Tree { area: high, cuts },
    )))
}

fn head_step(
    alloc: Global,
    model: &Bilevel,
    cuts: u64,
    line: &CertLine,
) -> Result<Option<Following>, AllocError>
    ensures { IfOk result (IsStep model.now (Part.Head cuts) line.now) }
{
    let CertLine::TreeHead = line else {
        return Ok(None);
    };
    let area = Region::root(alloc, model)?;
    Ok(Some(Following::Two(Part::Tree { area, cuts }, Part::End)))
}

fn tree_step(
    alloc: Global,
    model: &Bilevel,
    area: Region,
    cuts: u64,
    line: &CertLine,
) -> Result<Option<Following>, AllocError>
    ensures { IfOk result (IsStep model.now (Part.Tree area cuts) line.now) }
{
    match line {
        CertLine::Split { column, at } => tree_halves(alloc, area, cuts, *column, *at),
        CertLine::NoAnswer => Ok(Some(Following::Nothing)),
        CertLine::Close {
            value_row,
            cuts: cited,
            mult,
            ..
        } if is_leaf(
            model,
            cuts as usize,
            *value_row,
            cited.as_slice(),
            mult.as_slice(),
        ) => { Ok(Some(Following::Nothing)) }
        _ => Ok(None),
    }
}

/// What is expected behind the line in place of the part; `None` where the line may not stand there. `lower` is the
/// count of the follower's rows, by `lower_count`.
pub fn step(
    alloc: Global,
    model: &Bilevel,
    lower: usize,
    part: Part,
    line: &CertLine,
) -> Result<Option<Following>, AllocError>
    requires { lower ≡ lower_count model.now }
    ensures { IfOk result (IsStep model.now part line.now) }
{
    match part {
        Part::Version => Ok(version_step(line)),
        Part::Sense => Ok(sense_step(line)),
        Part::Statement => Ok(statement_step(line)),
        Part::Point => Ok(point_step(model, line)),
        Part::EntryCount => Ok(entry_count_step(line)),
        Part::Entries { left, last } => entry_step(alloc, model, left, last, line),
        Part::Answer => answer_step(alloc, model, line),
        Part::FollowerTree { area } => follower_tree_step(alloc, model, lower, area, line),
        Part::CutCount => Ok(cut_count_step(line)),
        Part::Cuts { place, count } => Ok(cut_step(place, count, line)),
        Part::CutArea { place } => Ok(cut_area_step(model, place, line)),
        Part::Tight { place } => Ok(tight_step(model, place, line)),
        Part::Inverse { items } => Ok(inverse_step(model, items, line)),
        Part::Units { left, items } => Ok(unit_step(left, items, line)),
        Part::At => Ok(at_step(model, line)),
        Part::Response => Ok(response_step(model, line)),
        Part::Head { cuts } => head_step(alloc, model, cuts, line),
        Part::Tree { area, cuts } => tree_step(alloc, model, area, cuts, line),
        Part::End => Ok(end_step(line)),
    }
}
