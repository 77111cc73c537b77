//! Whether the follower has a cheaper response at a point.
ghost use Rattle.std.specs.Prelude.{◌≡◌, ◌↔◌, ◌<ℤ◌, IsTrue, IfOk};
ghost use Rattle.bl_terms.specs.Bounds.{Fits, IsPoint};
ghost use Rattle.bl_terms.specs.Programs.{InBox};
ghost use Rattle.bl_whole.specs.Sums.{dot};
ghost use Rattle.bl_cut_terms.specs.NoGoods.{HasBetterResponse};

use bl_bound::Problem;
use bl_fproof::FollowerRows;
use bl_model::Bilevel;
use bl_point::whole_at;
use std::alloc::{AllocError, Global};

/// Whether the point lies in the problem's box, meets its rows and costs less than `cost`.
fn is_cheaper_point(problem: &Problem<'_>, point: &[i64], cost: i64) -> bool
    requires { Fits problem.now }
    ensures { IsTrue result ↔ (IsPoint problem.now point.now × (dot problem.now.cost point.now <ℤ cost)) }
{
    whole_at(problem, Some(cost), point)
}

/// Whether the response is one to the point's link, and costs the follower less than the point.
pub fn has_better_response(
    alloc: Global,
    model: &Bilevel,
    point: &[i64],
    response: &[i64],
) -> Result<bool, AllocError>
    requires { InBox model.now point.now }
    ensures { IfOk result (λ better. IsTrue better ↔ HasBetterResponse model.now point.now response.now) }
{
    let link = model.link_of(alloc, point)?;
    let rows = FollowerRows::make(alloc, model, &link)?;
    let problem = rows.problem(alloc, rows.lo(), rows.hi())?;
    Ok(is_cheaper_point(&problem, response, model.follower_of(point)))
}
