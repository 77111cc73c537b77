//! What holds with equality at a point.
ghost use Rattle.std.specs.Prelude.{◌≡◌, ◌↔◌, ◌++◌, map, IsTrue, IfOk, OnOk};
ghost use Rattle.std.specs.List.{range_with_len};
ghost use Rattle.bl_terms.specs.Points.{IsWithinArea};
ghost use Rattle.bl_terms.specs.Programs.{root, InBox};
ghost use Rattle.bl_nogood.specs.Candidates.{all_items as all_items_of, AreCandidates, IsCandidate};
ghost use Rattle.bl_nogood.specs.Choosing.{placed};

use bl_cut::{Cuts, Tight};
use bl_cut_proof::{holds_at, is_usable, tight_row};
use bl_model::{Bilevel, Box2};
use std::alloc::{AllocError, Global};

/// The item of the same kind at another place.
fn at_place(kind: Tight, place: u32) -> Tight
    ensures { result ≡ placed kind place }
{
    match kind {
        Tight::Row(_) => Tight::Row(place),
        Tight::Upper(_) => Tight::Upper(place),
        Tight::Lower(_) => Tight::Lower(place),
        Tight::Cut(_) => Tight::Cut(place),
    }
}

/// Adds the items of one kind at the places below `count` to the end.
fn push_kind(items: &mut Vec<Tight>, kind: Tight, count: u32) -> Result<(), AllocError>
    ensures { OnOk result (items.new.items ≡ items.old.items ++ map (placed kind) (range_with_len 0 count)) }
{
    for place in 0..count {
        items.push(at_place(kind, place))?;
    }
    Ok(())
}

/// All items: the model's rows, the upper and the lower sides of a box, and the earlier cuts.
fn all_items(alloc: Global, model: &Bilevel, earlier: &Cuts) -> Result<Vec<Tight>, AllocError>
    ensures { IfOk result (λ items. items.items ≡ all_items_of model.now earlier.now) }
{
    let rows = model.rows().len() as u32;
    let columns = model.lo().len() as u32;
    let mut items = Vec::new(alloc);
    push_kind(&mut items, Tight::Row(0), rows)?;
    push_kind(&mut items, Tight::Upper(0), columns)?;
    push_kind(&mut items, Tight::Lower(0), columns)?;
    push_kind(&mut items, Tight::Cut(0), earlier.count())?;
    Ok(items)
}

/// Whether an item may be used, and its row holds with equality at a point of the model's box.
fn is_candidate(
    alloc: Global,
    model: &Bilevel,
    area: &Box2,
    earlier: &Cuts,
    point: &[i64],
    item: Tight,
) -> Result<bool, AllocError>
    requires within { IsWithinArea area.now (root model.now) }
    requires inside { InBox model.now point.now }
    ensures { IfOk result (λ is. IsTrue is ↔ IsCandidate model.now area.now earlier.now point.now item) }
{
    let _columns = model.lo();
    let _sides = area.lo();
    let _count = earlier.count();
    if !is_usable(model, area, earlier, item) {
        return Ok(false);
    }
    let row = tight_row(alloc, model, area, earlier, item)?;
    Ok(holds_at(&row, point))
}

/// All candidates at a point of the model's box, in their order.
pub(crate) fn candidates(
    alloc: Global,
    model: &Bilevel,
    area: &Box2,
    earlier: &Cuts,
    point: &[i64],
) -> Result<Vec<Tight>, AllocError>
    requires within { IsWithinArea area.now (root model.now) }
    requires inside { InBox model.now point.now }
    ensures { IfOk result (λ items. AreCandidates model.now area.now earlier.now point.now items.items) }
{
    let mut chosen = Vec::new(alloc);
    let items = all_items(alloc, model, earlier)?;
    for item in &items {
        if is_candidate(alloc, model, area, earlier, point, *item)? {
            chosen.push(*item)?;
        }
    }
    Ok(chosen)
}
