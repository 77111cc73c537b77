//! The point of a cut, and the response there.
ghost use Rattle.std.specs.Prelude.{◌≡◌, ◌↔◌, ◌<◌, List, length, IsTrue, IfOk};
ghost use Rattle.bl_terms.specs.Programs.{InBox};
ghost use Rattle.bl_cut_terms.specs.NoGoods.{CutStep, HasBetterResponse};
ghost use Rattle.bl_check_terms.specs.Reading.{at_last, with_place};
ghost use Rattle.bl_check_terms.specs.Rules.{HoldEqual};
ghost use Rattle.bl_check_state.specs.Saying.{AreCuts, IsSummed};

use bl_check_state::HeldCuts;
use bl_cut_proof::{has_better_response, hold_with_equality};
use bl_model::Bilevel;
use std::alloc::{AllocError, Global};

/// Whether the rows of the last cut hold with equality at the point; where they do, takes the point over.
pub fn point(
    alloc: Global,
    model: &Bilevel,
    held: &mut HeldCuts,
    values: &[i64],
) -> Result<bool, AllocError>
    requires some { 0 < length held.old.cuts.items }
    requires summed { IsSummed model.now held.old }
    requires inside { InBox model.now values.now }
    ensures { IfOk result (λ kept. (cuts : List CutStep) → AreCuts model.now held.old cuts
        → (IsTrue kept ↔ HoldEqual held.old.tight.items values.now)
        × (IsTrue kept → AreCuts model.now held.new (at_last (with_place values.now) cuts))) }
{
    let _columns = model.lo();
    if !hold_with_equality(model, &held.tight, values) {
        return Ok(false);
    }
    held.point = Vec::from_slice(alloc, values)?;
    Ok(true)
}

/// Whether the response is one to the link of the last cut's point, and costs the follower less.
pub fn response(
    alloc: Global,
    model: &Bilevel,
    held: &HeldCuts,
    values: &[i64],
) -> Result<bool, AllocError>
    requires inside { InBox model.now held.now.point.items }
    ensures { IfOk result (λ kept. IsTrue kept ↔ HasBetterResponse model.now held.now.point.items values.now) }
{
    has_better_response(alloc, model, &held.point, values)
}
