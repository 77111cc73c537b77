//! The best response so far.
ghost use Rattle.std.specs.Prelude.{◌≡◌};
ghost use Rattle.bl_whole.specs.Sums.{dot};
ghost use Rattle.bl_terms.specs.Points.{InArea};
ghost use Rattle.bl_terms.specs.Bounds.{Fits};
ghost use Rattle.bl_follower.specs.Search.{cutoff_of};

use bl_bound::Problem;
use bl_point::cost_at;
use bl_raw::Listed;

/// A response with its cost.
#[derive(Debug, Drop)]
pub(crate) struct Response {
    pub(crate) point: Listed<i64>,
    pub(crate) value: i64,
}

/// What a further response has to cost less than.
pub(crate) fn cutoff(best: &Option<Response>) -> Option<i64>
    ensures { result ≡ cutoff_of best.now }
{
    match best {
        Some(response) => Some(response.value),
        None => None,
    }
}

/// A point of a problem's box with its cost.
pub(crate) fn response_at(problem: &Problem<'_>, point: Listed<i64>) -> Response
    requires problem_fits { Fits problem.now }
    requires inside { InArea problem.now.area point }
    ensures { result ≡ record { point = point; value = dot problem.now.cost point } }
{
    let value = cost_at(problem, point.as_slice()) as i64;
    Response { point, value }
}
