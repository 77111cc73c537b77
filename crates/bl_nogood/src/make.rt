//! The making of a cut.
ghost use Rattle.std.specs.Prelude.{◌≡◌, IfOk, IfErr};
ghost use Rattle.std.specs.Arc.{arc_value};
ghost use Rattle.bl_terms.specs.Points.{InArea, IsWithinArea};
ghost use Rattle.bl_terms.specs.Programs.{root, link_of};
ghost use Rattle.bl_terms.specs.Responses.{IsResponse};
ghost use Rattle.bl_nogood.specs.Choosing.{fails_as, AreMadeParts};
ghost use Rattle.bl_nogood.specs.Making.{IsMadeCut, IsCutAt, IsNoCut};

use crate::candidates::candidates;
use crate::costs::compare;
use crate::kept::{basis_of, parts_of};
use crate::no_cut::NoCut;
use bl_cut::{CutParts, Cuts, ProvedCut};
use bl_cut_proof::{assemble, tight_rows};
use bl_elimination::NoBasis;
use bl_model::{Bilevel, Box2};
use std::alloc::Global;
use std::sync::Arc;

/// How the elimination fails, as a failure to make a cut.
fn failed(reason: NoBasis) -> NoCut
    ensures { result ≡ fails_as reason }
{
    match reason {
        NoBasis::NotUnique { pivots } => NoCut::NotUnique { pivots },
        NoBasis::TooLarge { position } => NoCut::TooLarge { position },
        NoBasis::Memory => NoCut::Memory,
    }
}

/// The parts of the cut at a point, and how many candidates there are.
fn made_parts(
    alloc: Global,
    model: &Bilevel,
    area: &Box2,
    earlier: &Cuts,
    point: &[i64],
    response: &[i64],
) -> Result<(CutParts, u32), NoCut>
    requires within { IsWithinArea area.now (root model.now) }
    requires point { InArea area.now point.now }
    requires response { IsResponse model.now (link_of model.now point.now) response.now }
    ensures ok { IfOk result
        (λ made. AreMadeParts model.now area.now earlier.now point.now response.now made.0 made.1) }
    ensures err { IfErr result (IsNoCut model.now area.now earlier.now point.now response.now) }
{
    let _columns = model.lo();
    let _sides = area.lo();
    let _count = earlier.count();
    compare(model, point, response)?;
    let candidates = candidates(alloc, model, area, earlier, point)?;
    let rows = tight_rows(alloc, model, area, earlier, &candidates)?;
    let count = rows.len();
    if count > u32::MAX as usize {
        return Err(NoCut::Memory);
    }
    let basis = match basis_of(alloc, model, area, &rows) {
        Ok(basis) => basis,
        Err(reason) => return Err(failed(reason)),
    };
    let parts = parts_of(alloc, &candidates, basis, point, response)?;
    Ok((parts, count as u32))
}

/// Makes the cut of a box that takes away a point of it to which the follower has a cheaper response. The cut adds up
/// rows that hold with equality at the point, and there alone: of the candidates, in their order, those that the
/// elimination keeps.
pub fn make_cut(
    alloc: Global,
    model: Arc<Bilevel, Global>,
    area: Arc<Box2, Global>,
    earlier: Cuts,
    point: &[i64],
    response: &[i64],
) -> Result<ProvedCut, NoCut>
    requires within { IsWithinArea (arc_value area) (root (arc_value model)) }
    requires point { InArea (arc_value area) point.now }
    requires response { IsResponse (arc_value model) (link_of (arc_value model) point.now) response.now }
    ensures made { IfOk result (IsMadeCut (arc_value model) (arc_value area) earlier point.now response.now) }
    ensures at { IfOk result (IsCutAt (arc_value model) (arc_value area) point.now response.now) }
    ensures err { IfErr result (IsNoCut (arc_value model) (arc_value area) earlier point.now response.now) }
{
    let (parts, count) = made_parts(alloc, &model, &area, &earlier, point, response)?;
    match assemble(alloc, model, area, earlier, parts) {
        Ok(Some(cut)) => Ok(cut),
        Ok(None) => Err(NoCut::TooLarge { position: count }),
        // There is no other fault.
        Err(_) => Err(NoCut::Memory),
    }
}
