//! The follower's least cost, by walking every point of his columns.

ghost use Rattle.std.specs.Prelude.{◌≡◌, ◌<◌, ◌∷◌, All};
ghost use Rattle.bl_terms.specs.Programs.{InBox, columns as column_count};
ghost use Rattle.bl_plain.specs.Walk.{Varies, IsLeastCost, lesser};

use bl_model::Bilevel;

/// The least follower's cost among the points that vary `z` on these columns and meet the
/// follower's rows. It takes no memory.
#[cycle(least)]
pub(crate) fn least_cost(model: &Bilevel, z: &mut [i64], columns: &[u32]) -> Option<i64>
    requires point { InBox model.now z.old }
    requires columns { All (λ c. c < column_count model.now) columns.now }
    ensures least { IsLeastCost model.now columns.now z.old result }
    ensures point { Varies model.now columns.now z.old z.new }
{
    match columns {
        [] if model.meets_lower(z) => Some(model.follower_of(z)),
        [] => None,
        [column, rest @ ..] => least_over(model, z, *column as usize, rest),
    }
}

// The same of one column and further ones.
#[cycle(least)]
fn least_over(model: &Bilevel, z: &mut [i64], column: usize, rest: &[u32]) -> Option<i64>
    requires point { InBox model.now z.old }
    requires column { column < column_count model.now }
    requires rest { All (λ c. c < column_count model.now) rest.now }
    ensures least { IsLeastCost model.now (column ∷ rest.now) z.old result }
    ensures point { Varies model.now (column ∷ rest.now) z.old z.new }
{
    let mut least = None;
    for value in model.lo()[column]..model.hi()[column] + 1 {
        z[column] = value;
        least = lesser(least, least_cost(model, z, rest));
    }
    least
}

fn lesser(a: Option<i64>, b: Option<i64>) -> Option<i64>
    ensures { result ≡ lesser a b }
{
    match (a, b) {
        (Some(a), Some(b)) => Some(a.min(b)),
        (Some(a), None) => Some(a),
        (None, b) => b,
    }
}
