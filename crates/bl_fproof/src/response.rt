//! The test of a response.
ghost use Rattle.std.specs.Prelude.{◌≡◌, ◌↔◌, IsTrue, IfOk};
ghost use Rattle.bl_fproof.specs.Entries.{IsPointOfCost};

use crate::rows::FollowerRows;
use bl_point::{cost_at, whole_at};
use std::alloc::{AllocError, Global};

/// Whether the point lies in the follower's box, meets its rows and has this cost.
pub(crate) fn is_point_of_cost(
    alloc: Global,
    rows: &FollowerRows,
    point: &[i64],
    value: i64,
) -> Result<bool, AllocError>
    ensures { IfOk result (λ b. IsTrue b ↔ IsPointOfCost rows.now point.now value) }
{
    let problem = rows.problem(alloc, rows.lo(), rows.hi())?;
    Ok(whole_at(&problem, None, point) && cost_at(&problem, point) == i128::from(value))
}
