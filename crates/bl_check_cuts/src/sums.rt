//! What a cut adds up.
ghost use Rattle.std.specs.Prelude.{◌≡◌, ◌↔◌, ℕ, ◌<◌, List, length, map, All, IsTrue, IfOk, MatchOption};
ghost use Rattle.bl_terms.specs.Points.{IsArea, IsWithinArea};
ghost use Rattle.bl_terms.specs.Programs.{root};
ghost use Rattle.bl_cut_terms.specs.NoGoods.{CutStep, last_step, local_row};
ghost use Rattle.bl_certtext.specs.Places.{IsThere};
ghost use Rattle.bl_check_terms.specs.Reading.{at_last, before_last, with_tight};
ghost use Rattle.bl_check_terms.specs.Rules.{IsSized};
ghost use Rattle.bl_check_terms.specs.Values.{tight_of};
ghost use Rattle.bl_check_state.specs.Saying.{AreCutRows, AreCuts, IsBegun};
ghost use Rattle.bl_check_cuts.specs.Sums.{AddsUp, with_row};

use crate::rows::tight_rows;
use bl_certline::TightItem;
use bl_check_state::{HeldCuts, LocalCut};
use bl_cut::CutRow;
use bl_cut_proof::lowered_sum;
use bl_model::{Bilevel, Box2};
use std::alloc::{AllocError, Global};

/// The rows that a cut adds up, and its own row.
#[derive(Drop)]
struct Summed {
    rows: Vec<CutRow>,
    row: CutRow,
}

/// What a cut of these items adds up on the box; none where it uses an earlier cut that may not be used, or a number of
/// its row is beyond its limit.
fn add_up(
    alloc: Global,
    model: &Bilevel,
    area: &Box2,
    earlier: &[LocalCut],
    items: &[TightItem],
) -> Result<Option<Summed>, AllocError>
    requires within { IsWithinArea area.now (root model.now) }
    requires earlier { AreCutRows model.now earlier.now }
    requires there { (place : ℕ) × All (IsThere model.now place) items.now }
    ensures { IfOk result (λ summed. MatchOption summed
        (¬ IsSized model.now area.now earlier.now (map tight_of items.now))
        (λ s. AddsUp model.now area.now earlier.now (map tight_of items.now) s.rows.items s.row)) }
{
    let columns = model.lo().len();
    let _sides = area.lo();
    let Some(rows) = tight_rows(alloc, model, area, earlier, items)? else {
        return Ok(None);
    };
    if rows.len() > u32::MAX as usize {
        return Err(AllocError);
    }
    match lowered_sum(alloc, &rows, columns)? {
        Some(row) => Ok(Some(Summed { rows, row })),
        None => Ok(None),
    }
}

/// Keeps what the last cut adds up.
fn keep(held: &mut HeldCuts, summed: Summed)
    requires { 0 < length held.old.cuts.items }
    ensures cuts { held.new.cuts.items ≡ at_last (with_row summed.row) held.old.cuts.items }
    ensures tight { held.new.tight.items ≡ summed.rows.items }
    ensures den { held.new.den ≡ held.old.den }
    ensures units { held.new.units ≡ held.old.units }
    ensures point { held.new.point.items ≡ held.old.point.items }
{
    let last = held.cuts.len() - 1;
    held.cuts[last].row = summed.row;
    held.tight = summed.rows;
}

/// Whether the earlier cuts that the last cut uses may be used on its box, and the numbers of its row are within their
/// limits; where they are, takes over what the cut adds up. The one want of memory that isn't one: there is no room for
/// 2^32 items.
pub fn size(
    alloc: Global,
    model: &Bilevel,
    held: &mut HeldCuts,
    items: &[TightItem],
) -> Result<bool, AllocError>
    requires begun { IsBegun model.now held.old.cuts.items }
    requires there { (place : ℕ) × All (IsThere model.now place) items.now }
    ensures { IfOk result (λ kept. (cuts : List CutStep) → AreCuts model.now held.old cuts
        → (IsTrue kept ↔ IsSized model.now (last_step cuts).area (map local_row (before_last cuts))
        (map tight_of items.now))
        × (IsTrue kept → AreCuts model.now held.new
        (at_last (with_tight model.now (before_last cuts) (map tight_of items.now)) cuts))) }
{
    let Some((last, earlier)) = held.cuts.split_last() else {
        return Ok(false);
    };
    let Some(summed) = add_up(alloc, model, &last.area, earlier, items)? else {
        return Ok(false);
    };
    keep(held, summed);
    Ok(true)
}
