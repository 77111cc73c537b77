//! The proof of a cut.
ghost use Rattle.std.specs.Prelude.{◌≡◌, ◌^◌, ◌<◌, length, IfOk, IfErr, All, MatchOption};
ghost use Rattle.std.specs.Arc.{arc_value};
ghost use Rattle.bl_terms.specs.Points.{IsWithinArea};
ghost use Rattle.bl_terms.specs.Programs.{columns as column_count, root};
ghost use Rattle.bl_cut_terms.specs.NoGoods.{IsUnit, HasSize, last_step, cut_row};
ghost use Rattle.bl_cut_proof.specs.Proving.{local_rows, IsOfProgram, IsCutOf, IsOwnStep, IsFault, IsSmallRow};
ghost use Rattle.bl_cut_proof.specs.declared.fault.CutFault.TheVariants.{Memory};
ghost use Rattle.bl_cut_proof.specs.Faults.{IsSizeFault, AreShown, IsRowsFault};
ghost use Rattle.bl_cut_proof.specs.Rows.{AreRows, HasShape, IsSized};

use crate::fault::CutFault;
use crate::response::has_better_response;
use crate::rows::tight_rows;
use crate::size::has_shape;
use crate::steps::steps_of;
use crate::sums::{inverts, lowered_sum};
use crate::tight::is_tight_at;
use bl_cut::{CutParts, CutRow, Cuts, ProvedCut};
use bl_model::{Bilevel, Box2};
use std::alloc::Global;
use std::sync::Arc;

/// The rows that the items stand for, and the cut's row, none where a number of it is too large.
pub(crate) fn summed_rows(
    alloc: Global,
    model: &Bilevel,
    area: &Box2,
    earlier: &Cuts,
    parts: &CutParts,
) -> Result<Option<(Vec<CutRow>, CutRow)>, CutFault>
    requires within { IsWithinArea area.now (root model.now) }
    requires shape { HasShape model.now area.now earlier.now parts.now }
    ensures ok { IfOk result (λ sum. MatchOption sum
        (¬ IsSmallRow (cut_row model.now area.now (local_rows earlier.now) parts.now.tight))
        (λ rows. IsSized model.now area.now earlier.now parts.now rows.0.items rows.1)) }
    ensures err { IfErr result (λ fault. fault ≡ Memory) }
{
    let _sides = area.lo();
    let _count = earlier.count();
    let rows = tight_rows(alloc, model, area, earlier, parts.tight.as_slice())?;
    if rows.len() > u32::MAX as usize {
        return Err(CutFault::Memory);
    }
    match lowered_sum(alloc, &rows, model.lo().len())? {
        Some(row) => Ok(Some((rows, row))),
        None => Ok(None),
    }
}

/// The rows that the items stand for, and the cut's row; the fault `Size` where the parts don't have their size.
fn sized_rows(
    alloc: Global,
    model: &Bilevel,
    area: &Box2,
    earlier: &Cuts,
    parts: &CutParts,
) -> Result<(Vec<CutRow>, CutRow), CutFault>
    requires { IsWithinArea area.now (root model.now) }
    ensures ok { IfOk result (λ rows. IsSized model.now area.now earlier.now parts.now rows.0.items rows.1) }
    ensures err { IfErr result (IsSizeFault (¬ (HasSize model.now area.now (local_rows earlier.now) parts.now
        × All (IsOfProgram model.now earlier.now) parts.now.tight))) }
{
    if !has_shape(model, area, earlier, parts) {
        return Err(CutFault::Size);
    }
    match summed_rows(alloc, model, area, earlier, parts)? {
        Some(rows) => Ok(rows),
        None => Err(CutFault::Size),
    }
}

/// Tests the inverse, the point and the response of a cut's parts.
fn test_shown(
    alloc: Global,
    model: &Bilevel,
    rows: &[CutRow],
    parts: &CutParts,
) -> Result<(), CutFault>
    requires rows { AreRows (column_count model.now) rows.now }
    requires few { length rows.now < 2 ^ 32 }
    requires count { length parts.now.units ≡ column_count model.now }
    requires units { All (IsUnit (length rows.now)) parts.now.units }
    ensures ok { IfOk result (λ _. AreShown model.now rows.now parts.now) }
    ensures err { IfErr result (IsRowsFault model.now rows.now parts.now) }
{
    if !inverts(rows, parts.units.as_slice(), parts.den, model.lo().len()) {
        return Err(CutFault::Inverse);
    }
    if !is_tight_at(model, rows, parts.point.as_slice()) {
        return Err(CutFault::Tight);
    }
    if has_better_response(
        alloc,
        model,
        parts.point.as_slice(),
        parts.response.as_slice(),
    )? {
        Ok(())
    } else {
        Err(CutFault::Response)
    }
}

/// Proves the cut of these parts on a box: an item `Tight::Cut` names a place in `earlier`. The new cut keeps the
/// steps of the cuts that it uses.
pub fn prove_cut(
    alloc: Global,
    model: Arc<Bilevel, Global>,
    area: Arc<Box2, Global>,
    earlier: Cuts,
    parts: CutParts,
) -> Result<ProvedCut, CutFault>
    requires { IsWithinArea (arc_value area) (root (arc_value model)) }
    ensures ok { IfOk result (IsCutOf (arc_value model) (arc_value area) earlier parts) }
    ensures own { IfOk result
        (λ c. IsOwnStep (arc_value model) (arc_value area) earlier parts (last_step c.steps)) }
    ensures err { IfErr result (IsFault (arc_value model) (arc_value area) earlier parts) }
{
    let (rows, row) = sized_rows(alloc, &model, &area, &earlier, &parts)?;
    let steps = steps_of(alloc, &area, &earlier, &parts, row)?;
    test_shown(alloc, &model, &rows, &parts)?;
    Ok(ProvedCut::make(model, steps))
}
