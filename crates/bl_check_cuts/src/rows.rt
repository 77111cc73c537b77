//! The rows that a cut adds up.
ghost use Rattle.std.specs.Prelude.{◌≡◌, ℕ, ◌<◌, length, map, slice_set, pos, negsuc, neg_ℤ, All, IfOk, MatchOption};
ghost use Rattle.bl_limits.specs.declared.TheConstants.{MAX_NUMBER};
ghost use Rattle.bl_whole.specs.Sums.{component};
ghost use Rattle.bl_whole.specs.Within.{IsWithin};
ghost use Rattle.bl_terms.specs.Points.{zeros};
ghost use Rattle.bl_terms.specs.Programs.{columns as column_count, inequality, row_at};
ghost use Rattle.bl_cut_terms.specs.NoGoods.{IsThere as IsThereFor, local_row_at};
ghost use Rattle.bl_cut_terms.specs.NoGoods.{tight_row as row_of, tight_rows as rows_of};
ghost use Rattle.bl_certtext.specs.Places.{IsThere};
ghost use Rattle.bl_check_terms.specs.Values.{tight_of};
ghost use Rattle.bl_check_cuts.specs.Sums.{IsUsable};

use crate::places::place_of;
use bl_certline::TightItem;
use bl_check_state::LocalCut;
use bl_cut::CutRow;
use bl_cut_proof::{copied, side};
use bl_model::{Bilevel, Box2};
use std::alloc::{AllocError, Global};

/// A row of the model.
fn model_row(alloc: Global, model: &Bilevel, place: usize) -> Result<CutRow, AllocError>
    requires { place < length model.now.rows }
    ensures { IfOk result (λ row. row ≡ inequality (row_at model.now.rows place)) }
{
    let row = &model.rows()[place];
    copied(alloc, &row.coef, row.right)
}

/// The upper side of a column: `z_j <= hi_j`.
fn upper_row(alloc: Global, area: &Box2, column: usize) -> Result<CutRow, AllocError>
    requires { column < length area.now.lo }
    ensures { IfOk result (λ row. row
        ≡ record {
          coef = slice_set (zeros (length area.now.lo)) column (pos 1);
          rhs = component area.now.hi column;
        }) }
{
    side(alloc, area.lo().len(), column, 1, area.hi()[column])
}

/// The number with the other sign.
fn negated(number: i64) -> i64
    requires { IsWithin MAX_NUMBER number }
    ensures { result ≡ neg_ℤ number }
{
    -number
}

/// The lower side of a column: `-z_j <= -lo_j`.
fn lower_row(alloc: Global, area: &Box2, column: usize) -> Result<CutRow, AllocError>
    requires { column < length area.now.lo }
    ensures { IfOk result (λ row. row
        ≡ record {
          coef = slice_set (zeros (length area.now.lo)) column (negsuc 0);
          rhs = neg_ℤ (component area.now.lo column);
        }) }
{
    let lo = area.lo();
    side(alloc, lo.len(), column, -1, negated(lo[column]))
}

/// The row of an earlier cut, none where there is no such cut or its box doesn't contain this one.
fn earlier_row(
    alloc: Global,
    area: &Box2,
    earlier: &[LocalCut],
    place: usize,
) -> Result<Option<CutRow>, AllocError>
    ensures { IfOk result (λ row. MatchOption row (¬ IsUsable area.now earlier.now place)
        (λ row. (row ≡ (local_row_at earlier.now place).row) × IsUsable area.now earlier.now place)) }
{
    if earlier.len() <= place {
        return Ok(None);
    }
    let cut = &earlier[place];
    if !area.within(&cut.area) {
        return Ok(None);
    }
    let row = copied(alloc, &cut.row.coef, cut.row.right)?;
    Ok(Some(row))
}

/// The row that an item stands for, none where it names an earlier cut that may not be used.
fn tight_row(
    alloc: Global,
    model: &Bilevel,
    area: &Box2,
    earlier: &[LocalCut],
    item: TightItem,
) -> Result<Option<CutRow>, AllocError>
    requires there { (place : ℕ) × IsThere model.now place item }
    requires columns { length area.now.lo ≡ column_count model.now }
    ensures { IfOk result (λ row. MatchOption row
        (¬ IsThereFor model.now area.now earlier.now (tight_of item))
        (λ row. (row ≡ row_of model.now area.now earlier.now (tight_of item))
        × IsThereFor model.now area.now earlier.now (tight_of item))) }
{
    match item {
        TightItem::Row(place) => Ok(Some(model_row(alloc, model, place_of(place))?)),
        TightItem::Upper(place) => Ok(Some(upper_row(alloc, area, place_of(place))?)),
        TightItem::Lower(place) => Ok(Some(lower_row(alloc, area, place_of(place))?)),
        TightItem::Cut(place) => earlier_row(alloc, area, earlier, place_of(place)),
    }
}

/// The rows that the items stand for, none where one of them names an earlier cut that may not be used.
pub(crate) fn tight_rows(
    alloc: Global,
    model: &Bilevel,
    area: &Box2,
    earlier: &[LocalCut],
    items: &[TightItem],
) -> Result<Option<Vec<CutRow>>, AllocError>
    requires there { (place : ℕ) × All (IsThere model.now place) items.now }
    requires columns { length area.now.lo ≡ column_count model.now }
    ensures { IfOk result (λ rows. MatchOption rows
        (¬ All (IsThereFor model.now area.now earlier.now) (map tight_of items.now))
        (λ rows. (rows.items ≡ rows_of model.now area.now earlier.now (map tight_of items.now))
        × All (IsThereFor model.now area.now earlier.now) (map tight_of items.now))) }
{
    let mut rows = Vec::with_capacity(alloc, items.len())?;
    for item in items {
        let Some(row) = tight_row(alloc, model, area, earlier, *item)? else {
            return Ok(None);
        };
        rows.push(row)?;
    }
    Ok(Some(rows))
}
