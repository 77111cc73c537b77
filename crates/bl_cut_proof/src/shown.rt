//! Cuts whose parts are known to show them.
ghost use Rattle.std.specs.Prelude.{◌≡◌, length, IfOk, IfErr, IfSome, MatchOption};
ghost use Rattle.std.specs.Arc.{arc_value};
ghost use Rattle.bl_terms.specs.Points.{IsWithinArea};
ghost use Rattle.bl_terms.specs.Programs.{columns as column_count, root};
ghost use Rattle.bl_cut_terms.specs.NoGoods.{cut_row, last_step};
ghost use Rattle.bl_cut.specs.Cuts.{IsProvedCut};
ghost use Rattle.bl_cut_proof.specs.Proving.{local_rows, IsCutOf, IsOwnStep, IsSmallRow};
ghost use Rattle.bl_cut_proof.specs.Rows.{IsShown};
ghost use Rattle.bl_cut_proof.specs.declared.fault.CutFault.TheVariants.{Memory};

use crate::fault::CutFault;
use crate::prove::summed_rows;
use crate::steps::steps_of;
use bl_cut::{CutParts, Cuts, ProvedCut};
use bl_model::{Bilevel, Box2};
use std::alloc::Global;
use std::sync::Arc;

/// The cut of parts that are known to show it, none where a number of its row is too large. Of as many rows as there
/// are columns no two are equal, so the steps of the cut can't fail, and the one fault is want of memory.
pub fn assemble(
    alloc: Global,
    model: Arc<Bilevel, Global>,
    area: Arc<Box2, Global>,
    earlier: Cuts,
    parts: CutParts,
) -> Result<Option<ProvedCut>, CutFault>
    requires within { IsWithinArea (arc_value area) (root (arc_value model)) }
    requires shown { IsShown (arc_value model) (arc_value area) earlier parts }
    requires square { length parts.tight ≡ column_count (arc_value model) }
    ensures cut { IfOk result (λ cut. MatchOption cut
        (¬ IsSmallRow (cut_row (arc_value model) (arc_value area) (local_rows earlier) parts.tight))
        (IsCutOf (arc_value model) (arc_value area) earlier parts)) }
    ensures own { IfOk result (λ cut. IfSome cut
        (λ c. IsOwnStep (arc_value model) (arc_value area) earlier parts (last_step c.steps))) }
    ensures proved { IfOk result (λ cut. IfSome cut IsProvedCut) }
    ensures err { IfErr result (λ fault. fault ≡ Memory) }
{
    match summed_rows(alloc, &model, &area, &earlier, &parts)? {
        Some((_, row)) => {
            let steps = steps_of(alloc, &area, &earlier, &parts, row)?;
            Ok(Some(ProvedCut::make(model, steps)))
        }
        None => Ok(None),
    }
}
