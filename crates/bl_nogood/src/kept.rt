//! The rows that the elimination keeps.
ghost use Rattle.std.specs.Prelude.{◌≡◌, ◌<◌, ◌^◌, length, map, All, IfOk};
ghost use Rattle.bl_terms.specs.Points.{IsWithinArea};
ghost use Rattle.bl_terms.specs.Programs.{columns as column_count, root};
ghost use Rattle.bl_elimination.specs.Elimination.{IsGiven, elimination};
ghost use Rattle.bl_elimination.specs.Inverses.{IsBasis};
ghost use Rattle.bl_cut_terms.specs.Adopting.{item_at};
ghost use Rattle.bl_cut_proof.specs.Rows.{AreRows};
ghost use Rattle.bl_nogood.specs.Making.{parts_of as parts_with};

use bl_bound::Problem;
use bl_cut::{CutParts, CutRow, Tight};
use bl_elimination::{Basis, NoBasis, eliminate};
use bl_model::{Bilevel, Box2};
use bl_raw::Listed;
use std::alloc::{AllocError, Global};

/// The problem of the rows over the box. No row is copied.
fn problem_of<'a>(
    alloc: Global,
    model: &'a Bilevel,
    area: &'a Box2,
    rows: &'a [CutRow],
) -> Result<Problem<'a>, AllocError>
    requires within { IsWithinArea area.now (root model.now) }
    requires rows { AreRows (column_count model.now) rows.now }
    ensures { IfOk result (λ q. q ≡ record { rows = rows.now; cost = model.now.cost; area = area.now }) }
{
    let mut problem = Problem::start(alloc, model.cost(), area.lo(), area.hi());
    for row in rows {
        problem.row(&row.coef, row.right)?;
    }
    Ok(problem)
}

/// The basis of the rows.
pub(crate) fn basis_of(
    alloc: Global,
    model: &Bilevel,
    area: &Box2,
    rows: &[CutRow],
) -> Result<Basis, NoBasis>
    requires within { IsWithinArea area.now (root model.now) }
    requires rows { AreRows (column_count model.now) rows.now }
    requires few { length rows.now < 2 ^ 32 }
    ensures exact { IsGiven (elimination (record { rows = rows.now; cost = model.now.cost; area = area.now })) result }
    ensures basis { IfOk result (IsBasis (record { rows = rows.now; cost = model.now.cost; area = area.now })) }
{
    let _columns = model.lo();
    let _sides = area.lo();
    let problem = problem_of(alloc, model, area, rows)?;
    eliminate(alloc, &problem)
}

/// The candidates with these numbers.
fn kept_items(alloc: Global, candidates: &[Tight], kept: &[u32]) -> Result<Vec<Tight>, AllocError>
    requires { All (λ i. i < length candidates.now) kept.now }
    ensures { IfOk result (λ items. items.items ≡ map (λ i. item_at candidates.now i) kept.now) }
{
    let mut items = Vec::with_capacity(alloc, kept.len())?;
    for number in kept {
        items.push(candidates[*number as usize])?;
    }
    Ok(items)
}

/// The parts of the cut of the candidates that are kept.
pub(crate) fn parts_of(
    alloc: Global,
    candidates: &[Tight],
    basis: Basis,
    point: &[i64],
    response: &[i64],
) -> Result<CutParts, AllocError>
    requires { All (λ i. i < length candidates.now) basis.kept }
    ensures { IfOk result (λ parts. parts ≡ parts_with candidates.now basis point.now response.now) }
{
    let tight = kept_items(alloc, candidates, basis.kept.as_slice())?;
    let point = Vec::from_slice(alloc, point)?;
    let response = Vec::from_slice(alloc, response)?;
    Ok(CutParts {
        tight: Listed::new(tight),
        den: basis.den,
        units: basis.units,
        point: Listed::new(point),
        response: Listed::new(response),
    })
}
