//! The steps of a new cut: those of the cuts that it uses, each once, and its own.
ghost use Rattle.std.specs.Prelude.{◌≡◌, ℕ, ◌<◌, ◌^◌, ◌++◌, ◌∷◌, List, length, map, [], Some, None, IfOk, IfErr};
ghost use Rattle.std.specs.Prelude.{true, false};
ghost use Rattle.std.specs.Arc.{arc_value};
ghost use Rattle.bl_terms.specs.Programs.{Program};
ghost use Rattle.bl_cut_terms.specs.NoGoods.{cut_row};
ghost use Rattle.bl_cut.specs.Cuts.{cut_at};
ghost use Rattle.bl_cut_terms.specs.Adopting.{moved_step as step_with, are_in_order as stand_in_order};
ghost use Rattle.bl_cut_terms.specs.Adopting.{place_in as place_among, with_step, adopt, adopt_cut};
ghost use Rattle.bl_cut_terms.specs.Adopting.{is_cut as is_this_cut, is_used as is_cut_used, last_place as last_of};
ghost use Rattle.bl_cut_terms.specs.Adopting.{adopt_cuts as adopt_cuts_of, steps_of as all_steps};
ghost use Rattle.bl_cut_proof.specs.Proving.{local_rows};
ghost use Rattle.bl_cut_proof.specs.Faults.{IsSizeFault};
ghost use Rattle.bl_cut_proof.specs.Rows.{over_cut};
ghost use Rattle.bl_cut_proof.specs.declared.fault.CutFault.TheVariants.{Memory};

use crate::fault::CutFault;
use crate::items::are_in_order;
use crate::lists::push;
use crate::moved::{moved_parts, moved_step};
use crate::same::same_step;
use bl_cut::{CutParts, CutRow, CutStep, Cuts, ProvedCut, Tight};
use bl_model::Box2;
use std::alloc::{AllocError, Global};
use std::sync::Arc;

/// The place of a step among steps; where it isn't there, that of the end.
fn place_in(steps: &[Arc<CutStep, Global>], step: &CutStep) -> usize
    ensures { result ≡ place_among (map arc_value steps.now) step.now }
{
    for place in 0..steps.len() {
        if same_step(&steps[place], step) {
            return place;
        }
    }
    steps.len()
}

/// Adds a step where it isn't there yet, and gives its place.
fn add_step(
    steps: &mut Vec<Arc<CutStep, Global>>,
    step: Arc<CutStep, Global>,
) -> Result<u32, CutFault>
    ensures place { IfOk result (λ place. place ≡ place_among (map arc_value steps.old.items) (arc_value step)) }
    ensures steps { IfOk result
        (λ _. map arc_value steps.new.items ≡ with_step (map arc_value steps.old.items) (arc_value step)) }
    ensures err { IfErr result (λ fault. fault ≡ Memory) }
{
    let place = place_in(steps, &step);
    if place >= u32::MAX as usize {
        return Err(CutFault::Memory);
    }
    if place >= steps.len() {
        push(steps, step)?;
    }
    Ok(place as u32)
}

/// Takes over a step of a cut, with the places that the ones before it got, and gives its place.
fn adopt_step(
    alloc: Global,
    steps: &mut Vec<Arc<CutStep, Global>>,
    places: &[u32],
    step: &Arc<CutStep, Global>,
) -> Result<u32, CutFault>
    ensures order { IfOk result
        (λ _. stand_in_order (step_with places.now (arc_value step.now)).parts.tight ≡ true) }
    ensures place { IfOk result (λ place.
        place ≡ place_among (map arc_value steps.old.items) (step_with places.now (arc_value step.now))) }
    ensures steps { IfOk result (λ _. map arc_value steps.new.items
        ≡ with_step (map arc_value steps.old.items) (step_with places.now (arc_value step.now))) }
    ensures err { IfErr result
        (IsSizeFault (stand_in_order (step_with places.now (arc_value step.now)).parts.tight ≡ false)) }
{
    let moved = moved_step(alloc, step, places)?;
    if !are_in_order(moved.parts().tight.as_slice()) {
        return Err(CutFault::Size);
    }
    let place = add_step(steps, moved)?;
    Ok(place)
}

/// Takes over the steps of a cut, and gives their places.
fn adopt_steps(
    alloc: Global,
    steps: &mut Vec<Arc<CutStep, Global>>,
    taken: &[Arc<CutStep, Global>],
) -> Result<Vec<u32>, CutFault>
    ensures ok { IfOk result (λ places.
        adopt (record { steps = map arc_value steps.old.items; places = [] }) (map arc_value taken.now)
        ≡ Some (record { steps = map arc_value steps.new.items; places = places.items })) }
    ensures err { IfErr result (IsSizeFault
        (adopt (record { steps = map arc_value steps.old.items; places = [] }) (map arc_value taken.now) ≡ None)) }
{
    let mut places = Vec::with_capacity(alloc, taken.len())?;
    for step in taken {
        let place = adopt_step(alloc, steps, &places, step)?;
        push(&mut places, place)?;
    }
    Ok(places)
}

/// Whether an item is an earlier cut.
fn is_cut(item: Tight, cut: u32) -> bool
    ensures { result ≡ is_this_cut cut item }
{
    match item {
        Tight::Cut(place) => place == cut,
        _ => false,
    }
}

/// Whether an earlier cut is among the items.
fn is_used(tight: &[Tight], cut: u32) -> bool
    ensures { result ≡ is_cut_used cut tight.now }
{
    for item in tight {
        if is_cut(*item, cut) {
            return true;
        }
    }
    false
}

/// The last of the places, 0 where there is none.
fn last_place(places: &[u32]) -> u32
    ensures { result ≡ last_of places.now }
{
    if places.is_empty() {
        0
    } else {
        places[places.len() - 1]
    }
}

/// Takes over the steps of a cut that is used, and gives the place of its last.
pub fn adopt_used(
    alloc: Global,
    steps: &mut Vec<Arc<CutStep, Global>>,
    cut: &ProvedCut,
) -> Result<u32, CutFault>
    ensures ok { IfOk result (λ place. (places : List ℕ)
        → adopt_cut (record { steps = map arc_value steps.old.items; places = places }) cut.now
        ≡ Some (record { steps = map arc_value steps.new.items; places = places ++ place ∷ [] })) }
    ensures err { IfErr result (IsSizeFault ((places : List ℕ)
        → adopt_cut (record { steps = map arc_value steps.old.items; places = places }) cut.now ≡ None)) }
{
    let places = adopt_steps(alloc, steps, cut.steps())?;
    Ok(last_place(&places))
}

/// Takes over the steps of an earlier cut where it is used, and gives a place for it.
fn adopt_where_used(
    alloc: Global,
    steps: &mut Vec<Arc<CutStep, Global>>,
    earlier: &Cuts,
    tight: &[Tight],
    cut: u32,
) -> Result<u32, CutFault>
    requires { cut < length earlier.now }
    ensures ok { IfOk result (λ place. (places : List ℕ)
        → over_cut tight.now cut (cut_at earlier.now cut)
        (record { steps = map arc_value steps.old.items; places = places })
        ≡ Some (record { steps = map arc_value steps.new.items; places = places ++ place ∷ [] })) }
    ensures err { IfErr result (IsSizeFault ((places : List ℕ)
        → over_cut tight.now cut (cut_at earlier.now cut)
        (record { steps = map arc_value steps.old.items; places = places }) ≡ None)) }
{
    if !is_used(tight, cut) {
        return Ok(0);
    }
    match earlier.at(cut) {
        Some(cut) => adopt_used(alloc, steps, cut),
        None => Ok(0),
    }
}

/// Takes over the steps of the cuts that are used, and gives places for all earlier cuts.
fn adopt_cuts(
    alloc: Global,
    steps: &mut Vec<Arc<CutStep, Global>>,
    earlier: &Cuts,
    tight: &[Tight],
) -> Result<Vec<u32>, CutFault>
    ensures ok { IfOk result (λ places.
        adopt_cuts_of tight.now 0 earlier.now (Some (record { steps = map arc_value steps.old.items; places = [] }))
        ≡ Some (record { steps = map arc_value steps.new.items; places = places.items })) }
    ensures err { IfErr result (IsSizeFault (
        adopt_cuts_of tight.now 0 earlier.now (Some (record { steps = map arc_value steps.old.items; places = [] }))
        ≡ None)) }
{
    let mut places = Vec::new(alloc);
    for cut in 0..earlier.count() {
        let place = adopt_where_used(alloc, steps, earlier, tight, cut)?;
        push(&mut places, place)?;
    }
    Ok(places)
}

/// Adds the cut's own step.
fn add_own(
    alloc: Global,
    steps: &mut Vec<Arc<CutStep, Global>>,
    area: &Arc<Box2, Global>,
    parts: CutParts,
    row: CutRow,
) -> Result<(), AllocError>
    ensures { IfOk result (λ _. map arc_value steps.new.items
        ≡ map arc_value steps.old.items ++ record { area = arc_value area.now; parts = parts; row = row } ∷ []) }
{
    let area = area.clone()?;
    let step = Arc::new(alloc, CutStep::new(area, parts, row))?;
    push(steps, step)?;
    Ok(())
}

/// The steps of a new cut with this row.
pub(crate) fn steps_of(
    alloc: Global,
    area: &Arc<Box2, Global>,
    earlier: &Cuts,
    parts: &CutParts,
    row: CutRow,
) -> Result<Vec<Arc<CutStep, Global>>, CutFault>
    ensures ok { IfOk result (λ steps. (p : Program)
        → row ≡ cut_row p (arc_value area.now) (local_rows earlier.now) parts.now.tight
        → all_steps p (arc_value area.now) earlier.now parts.now ≡ Some (map arc_value steps.items)) }
    ensures few { IfOk result (λ steps. length steps.items < 2 ^ 32) }
    ensures err { IfErr result
        (IsSizeFault ((p : Program) → all_steps p (arc_value area.now) earlier.now parts.now ≡ None)) }
{
    let mut steps = Vec::new(alloc);
    let places = adopt_cuts(alloc, &mut steps, earlier, parts.tight.as_slice())?;
    let own = moved_parts(alloc, parts, &places)?;
    if !are_in_order(own.tight.as_slice()) {
        return Err(CutFault::Size);
    }
    if steps.len() >= u32::MAX as usize {
        return Err(CutFault::Memory);
    }
    add_own(alloc, &mut steps, area, own, row)?;
    Ok(steps)
}
