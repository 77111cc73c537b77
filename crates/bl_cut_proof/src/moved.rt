//! Parts and steps whose cuts get other places.
ghost use Rattle.std.specs.Prelude.{◌≡◌, IfOk, IfErr};
ghost use Rattle.std.specs.Arc.{arc_value};
ghost use Rattle.bl_cut_terms.specs.Adopting.{moved_parts as parts_with, moved_step as step_with};
ghost use Rattle.bl_cut_proof.specs.declared.fault.CutFault.TheVariants.{Memory};

use crate::fault::CutFault;
use crate::items::{items_in, order_of, renumbered_items};
use crate::same::same_parts;
use crate::units::reordered_units;
use bl_cut::{CutParts, CutRow, CutStep};
use bl_raw::Listed;
use std::alloc::{AllocError, Global};
use std::sync::Arc;

/// The parts with these places of the cuts: the items in order, and each multiplier with its item.
pub(crate) fn moved_parts(
    alloc: Global,
    parts: &CutParts,
    places: &[u32],
) -> Result<CutParts, CutFault>
    ensures ok { IfOk result (λ moved. moved ≡ parts_with places.now parts.now) }
    ensures err { IfErr result (λ fault. fault ≡ Memory) }
{
    let items = renumbered_items(alloc, parts.tight.as_slice(), places)?;
    if items.len() > u32::MAX as usize {
        return Err(CutFault::Memory);
    }
    let order = order_of(alloc, &items)?;
    let tight = items_in(alloc, &items, &order)?;
    let units = reordered_units(alloc, parts.units.as_slice(), &order)?;
    let point = Vec::from_slice(alloc, parts.point.as_slice())?;
    let response = Vec::from_slice(alloc, parts.response.as_slice())?;
    Ok(CutParts {
        tight: Listed::new(tight),
        den: parts.den,
        units: Listed::new(units),
        point: Listed::new(point),
        response: Listed::new(response),
    })
}

/// The step with these parts.
fn step_of_parts(
    alloc: Global,
    step: &CutStep,
    parts: CutParts,
) -> Result<Arc<CutStep, Global>, AllocError>
    ensures { IfOk result
        (λ moved. arc_value moved ≡ record { area = step.now.area; parts = parts; row = step.now.row }) }
{
    let coef = Vec::from_slice(alloc, step.coef())?;
    let row = CutRow {
        coef,
        right: step.right(),
    };
    let area = step.area().clone()?;
    let step = Arc::new(alloc, CutStep::new(area, parts, row))?;
    Ok(step)
}

/// The step with these places of the cuts, shared where that changes nothing.
pub(crate) fn moved_step(
    alloc: Global,
    step: &Arc<CutStep, Global>,
    places: &[u32],
) -> Result<Arc<CutStep, Global>, CutFault>
    ensures ok { IfOk result (λ moved. arc_value moved ≡ step_with places.now (arc_value step.now)) }
    ensures err { IfErr result (λ fault. fault ≡ Memory) }
{
    let parts = moved_parts(alloc, step.parts(), places)?;
    if same_parts(&parts, step.parts()) {
        let step = step.clone()?;
        return Ok(step);
    }
    let moved = step_of_parts(alloc, step, parts)?;
    Ok(moved)
}
