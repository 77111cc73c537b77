//! The follower's costs of a point and of a response.
ghost use Rattle.std.specs.Prelude.{◌≡◌, ◌≤◌, ◌<◌, ◌<ℤ◌, ◌≤ℤ◌, All, length, MatchResult};
ghost use Rattle.bl_limits.specs.declared.TheConstants.{MAX_COLUMNS, MAX_NUMBER};
ghost use Rattle.bl_whole.specs.Sums.{dot};
ghost use Rattle.bl_whole.specs.Within.{AreWithin};
ghost use Rattle.bl_terms.specs.Points.{values_at};
ghost use Rattle.bl_terms.specs.Programs.{InBox, follower_at};
ghost use Rattle.bl_terms.specs.Responses.{InRanges, response_cost as cost_of_response};
ghost use Rattle.bl_nogood.specs.Making.{IsDearer};

use crate::no_cut::NoCut;
use bl_model::Bilevel;
use bl_whole::int64::plus_product;

/// The sum of the products of the costs of these columns with the values.
fn cost_at(costs: &[i64], columns: &[u32], values: &[i64]) -> i64
    requires columns { All (λ k. k < length costs.now) columns.now }
    requires size { length values.now ≡ length columns.now }
    requires few { length columns.now ≤ MAX_COLUMNS }
    requires costs { AreWithin MAX_NUMBER costs.now }
    requires values { AreWithin MAX_NUMBER values.now }
    ensures { result ≡ dot (values_at costs.now columns.now) values.now }
{
    let mut cost = 0;
    for j in 0..columns.len() {
        cost = plus_product(cost, costs[columns[j] as usize], values[j]);
    }
    cost
}

/// The follower's cost of a response.
fn response_cost(model: &Bilevel, response: &[i64]) -> i64
    requires { InRanges model.now model.now.follower response.now }
    ensures { result ≡ cost_of_response model.now response.now }
{
    cost_at(model.follower_cost(), model.follower(), response)
}

/// The failure `NotBetter` where the response costs the follower no less than the point.
pub(crate) fn compare(model: &Bilevel, point: &[i64], response: &[i64]) -> Result<(), NoCut>
    requires point { InBox model.now point.now }
    requires response { InRanges model.now model.now.follower response.now }
    ensures { MatchResult result
        (λ _. cost_of_response model.now response.now <ℤ follower_at model.now point.now)
        (IsDearer model.now point.now response.now) }
{
    let at_point = model.follower_of(point);
    let at_response = response_cost(model, response);
    if at_response < at_point {
        Ok(())
    } else {
        Err(NoCut::NotBetter {
            point: at_point,
            response: at_response,
        })
    }
}
