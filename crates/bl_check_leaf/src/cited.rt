//! The cuts that a leaf cites.
ghost use Rattle.std.specs.Prelude.{◌≡◌, ◌↔◌, ◌++◌, length, map, All, IsTrue, IsSome, OnOk};
ghost use Rattle.bl_certtext.specs.Places.{IsPlace};
ghost use Rattle.bl_cut_proof.specs.Rows.{AreRows};
ghost use Rattle.bl_check_leaf.specs.Kept.{LiesInCited, cited_rows, cut_named};

use bl_bound::Problem;
use bl_check_state::LocalCut;
use bl_model::Box2;
use std::alloc::AllocError;

/// The cut that a number names.
fn cut_at(cuts: &[LocalCut], place: i64) -> &LocalCut
    requires { IsPlace (length cuts.now) place }
    ensures { result.now ≡ cut_named cuts.now place }
{
    &cuts[place as usize]
}

/// Whether the box lies in the boxes of the cited cuts.
fn lies_in_cited(area: &Box2, cuts: &[LocalCut], cited: &[i64]) -> bool
    requires { All (IsPlace (length cuts.now)) cited.now }
    ensures { IsTrue result ↔ LiesInCited area.now cuts.now cited.now }
{
    for place in cited {
        if !area.within(&cut_at(cuts, *place).area) {
            return false;
        }
    }
    true
}

/// Whether the box lies in the boxes of the cited cuts, and the value row has a value where it is used.
pub(crate) fn cites_rightly(
    area: &Box2,
    cuts: &[LocalCut],
    cited: &[i64],
    value_row: bool,
    value: Option<i64>,
) -> bool
    requires { All (IsPlace (length cuts.now)) cited.now }
    ensures { IsTrue result
        ↔ (LiesInCited area.now cuts.now cited.now × (IsTrue value_row → IsSome value)) }
{
    lies_in_cited(area, cuts, cited) && (!value_row || value.is_some())
}

/// Adds the rows of the cited cuts. No row is copied.
pub(crate) fn add_cited<'a>(
    problem: &mut Problem<'a>,
    cuts: &'a [LocalCut],
    cited: &[i64],
) -> Result<(), AllocError>
    requires there { All (IsPlace (length cuts.now)) cited.now }
    requires columns { AreRows (length problem.old.area.lo) (map (λ c. c.row) cuts.now) }
    ensures { OnOk result
        (problem.new ≡ record problem.old { rows = problem.old.rows ++ cited_rows cuts.now cited.now }) }
{
    for place in cited {
        let row = &cut_at(cuts, *place).row;
        problem.row(&row.coef, row.right)?;
    }
    Ok(())
}
