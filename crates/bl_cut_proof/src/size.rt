//! Whether the items and numbers of a cut are as they should be.
ghost use Rattle.std.specs.Prelude.{◌≡◌, ◌≢◌, ◌↔◌, ℕ, ◌<◌, ◌≤◌, pos, neg_ℤ, ◌≤ℤ◌, length, IsTrue};
ghost use Rattle.bl_limits.specs.declared.TheConstants.{MAX_PROOF_NUMBER};
ghost use Rattle.bl_cut_terms.specs.NoGoods.{IsUnit, unit_at};
ghost use Rattle.bl_cut_terms.specs.declared.parts.Tight.TheVariants.{Cut};
ghost use Rattle.bl_cut_terms.specs.Adopting.{item_at};
ghost use Rattle.bl_cut_proof.specs.Rows.{IsUsable, HasShape};

use crate::items::are_in_order;
use bl_cut::{CutParts, Cuts, Tight};
use bl_limits::MAX_PROOF_NUMBER;
use bl_model::{Bilevel, Box2, same};
use bl_raw::Listed;

/// Whether an earlier cut is there, is one of the model and is valid on the box.
fn is_usable_cut(model: &Bilevel, area: &Box2, earlier: &Cuts, cut: u32) -> bool
    ensures { IsTrue result ↔ IsUsable model.now area.now earlier.now (Cut cut) }
{
    match earlier.at(cut) {
        Some(cut) => area.within(cut.area()) && same(cut.model(), model),
        None => false,
    }
}

/// Whether what an item names is there and of the model, and an earlier cut's box contains the box.
pub fn is_usable(model: &Bilevel, area: &Box2, earlier: &Cuts, item: Tight) -> bool
    ensures { IsTrue result ↔ IsUsable model.now area.now earlier.now item }
{
    match item {
        Tight::Row(place) => (place as usize) < model.rows().len(),
        Tight::Upper(column) => (column as usize) < model.lo().len(),
        Tight::Lower(column) => (column as usize) < model.lo().len(),
        Tight::Cut(cut) => is_usable_cut(model, area, earlier, cut),
    }
}

/// Whether that is so of each item.
fn are_usable(model: &Bilevel, area: &Box2, earlier: &Cuts, tight: &[Tight]) -> bool
    ensures { IsTrue result ↔ ((k : ℕ) → k < length tight.now
        → IsUsable model.now area.now earlier.now (item_at tight.now k)) }
{
    for k in 0..tight.len() {
        if !is_usable(model, area, earlier, tight[k]) {
            return false;
        }
    }
    true
}

/// Whether a multiplier is one of a unit.
fn is_term(multiplier: i64) -> bool
    ensures { IsTrue result ↔ ((multiplier ≢ pos 0) × (neg_ℤ MAX_PROOF_NUMBER ≤ℤ multiplier)
        × (multiplier ≤ℤ MAX_PROOF_NUMBER)) }
{
    multiplier != 0 && -MAX_PROOF_NUMBER <= multiplier && multiplier <= MAX_PROOF_NUMBER
}

/// Whether the unit's places rise from `least` on and are below `count`, and its multipliers are as they should be.
fn is_unit(unit: &[(u32, i64)], count: usize) -> bool
    ensures { IsTrue result ↔ IsUnit count unit.now }
{
    let mut least = 0;
    for k in 0..unit.len() {
        let (place, multiplier) = unit[k];
        let place = place as usize;
        if place < least || place >= count || !is_term(multiplier) {
            return false;
        }
        least = place + 1;
    }
    true
}

/// Whether each list is a unit.
fn are_units(units: &[Listed<(u32, i64)>], count: usize) -> bool
    ensures { IsTrue result ↔ ((k : ℕ) → k < length units.now → IsUnit count (unit_at units.now k)) }
{
    for k in 0..units.len() {
        if !is_unit(units[k].as_slice(), count) {
            return false;
        }
    }
    true
}

/// Whether the parts are as they should be, all but the numbers of the cut's row.
pub(crate) fn has_shape(model: &Bilevel, area: &Box2, earlier: &Cuts, parts: &CutParts) -> bool
    ensures { IsTrue result ↔ HasShape model.now area.now earlier.now parts.now }
{
    let tight = parts.tight.as_slice();
    let units = parts.units.as_slice();
    1 <= parts.den
        && parts.den <= MAX_PROOF_NUMBER
        && units.len() == model.lo().len()
        && are_units(units, tight.len())
        && are_in_order(tight)
        && are_usable(model, area, earlier, tight)
}
