//! The box of a cut.
ghost use Rattle.std.specs.Prelude.{◌≡◌, ◌++◌, ◌∷◌, [], List, IfOk, OnOk};
ghost use Rattle.bl_cut_terms.specs.NoGoods.{CutStep};
ghost use Rattle.bl_certtext.specs.Places.{IsPart};
ghost use Rattle.bl_check_terms.specs.Reading.{cut_on};
ghost use Rattle.bl_check_terms.specs.Values.{area_of};
ghost use Rattle.bl_check_state.specs.Saying.{AreCuts};

use bl_check_state::{HeldCuts, LocalCut};
use bl_cut::CutRow;
use bl_model::{Bilevel, Box2};
use std::alloc::{AllocError, Global};

/// The lower sides.
fn lower_sides(alloc: Global, sides: &[(i64, i64)]) -> Result<Vec<i64>, AllocError>
    ensures { IfOk result (λ lo. lo.items ≡ (area_of sides.now).lo) }
{
    sides.iter().map(|side| side.0).collect(alloc)
}

/// The upper sides.
fn upper_sides(alloc: Global, sides: &[(i64, i64)]) -> Result<Vec<i64>, AllocError>
    ensures { IfOk result (λ hi. hi.items ≡ (area_of sides.now).hi) }
{
    sides.iter().map(|side| side.1).collect(alloc)
}

/// The box with these sides.
fn box_of(alloc: Global, model: &Bilevel, sides: &[(i64, i64)]) -> Result<Box2, AllocError>
    requires { IsPart model.now sides.now }
    ensures { IfOk result (λ area. area ≡ area_of sides.now) }
{
    let _columns = model.lo();
    let lo = lower_sides(alloc, sides)?;
    let hi = upper_sides(alloc, sides)?;
    Box2::with_sides(alloc, lo, hi)
}

/// Takes over the box of a new cut, both sides for each column.
pub fn begin(
    alloc: Global,
    model: &Bilevel,
    held: &mut HeldCuts,
    sides: &[(i64, i64)],
) -> Result<(), AllocError>
    requires { IsPart model.now sides.now }
    ensures { OnOk result ((cuts : List CutStep) → AreCuts model.now held.old cuts
        → AreCuts model.now held.new (cuts ++ cut_on (area_of sides.now) ∷ [])) }
{
    let area = box_of(alloc, model, sides)?;
    let row = CutRow {
        coef: Vec::new(alloc),
        right: 0,
    };
    held.cuts.push(LocalCut { area, row })?;
    held.tight.clear();
    held.den = 1;
    held.units = 0;
    held.point.clear();
    Ok(())
}
