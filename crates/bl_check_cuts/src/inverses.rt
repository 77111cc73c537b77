//! The inverse of a cut.
ghost use Rattle.std.specs.Prelude.{◌≡◌, ◌↔◌, ◌<◌, List, length, IsTrue, IfOk};
ghost use Rattle.bl_terms.specs.Programs.{Program, columns as column_count};
ghost use Rattle.bl_cut_terms.specs.NoGoods.{CutStep, IsUnit};
ghost use Rattle.bl_certtext.specs.Places.{AreBelow};
ghost use Rattle.bl_check_terms.specs.Reading.{at_last, with_den, with_unit};
ghost use Rattle.bl_check_terms.specs.Rules.{CombinesTo};
ghost use Rattle.bl_check_terms.specs.Values.{unit_of as unit_of_pairs};
ghost use Rattle.bl_check_state.specs.Saying.{AreCuts, IsSummed};

use crate::places::unit_of;
use bl_check_state::HeldCuts;
use bl_cut_proof::is_unit_of;
use bl_model::Bilevel;
use std::alloc::{AllocError, Global};

/// Takes over the number of the last cut's inverse.
pub fn inverse(held: &mut HeldCuts, den: i64)
    requires some { 0 < length held.old.cuts.items }
    ensures { (p : Program) (cuts : List CutStep) → AreCuts p held.old cuts
        → AreCuts p held.new (at_last (with_den den) cuts) }
{
    held.den = den;
}

/// Whether the numbers of the next unit combine the rows of the last cut to the column whose turn it is; where they do,
/// counts the unit.
pub fn unit(
    alloc: Global,
    model: &Bilevel,
    held: &mut HeldCuts,
    pairs: &[(i64, i64)],
) -> Result<bool, AllocError>
    requires some { 0 < length held.old.cuts.items }
    requires summed { IsSummed model.now held.old }
    requires column { held.old.units < column_count model.now }
    requires places { AreBelow (length held.old.tight.items) pairs.now }
    requires unit { IsUnit (length held.old.tight.items) (unit_of_pairs pairs.now) }
    ensures { IfOk result (λ kept. (cuts : List CutStep) → AreCuts model.now held.old cuts
        → (IsTrue kept ↔ CombinesTo (column_count model.now) held.old.tight.items held.old.den
        (unit_of_pairs pairs.now) held.old.units)
        × (IsTrue kept → AreCuts model.now held.new (at_last (with_unit (unit_of_pairs pairs.now)) cuts))) }
{
    let columns = model.lo().len();
    let unit = unit_of(alloc, pairs)?;
    if !is_unit_of(&held.tight, &unit, held.den, held.units, columns) {
        return Ok(false);
    }
    held.units += 1;
    Ok(true)
}
