//! The best bilevel feasible point, by walking every point of the box.

ghost use Rattle.std.specs.Prelude.{◌≡◌, ℕ, ◌<◌, ◌∷◌, ◌++◌, length, All, Contains, IfOk};
ghost use Rattle.bl_terms.specs.Programs.{InBox, columns as column_count};
ghost use Rattle.bl_terms.specs.Feasible.{BilevelFeasible};
ghost use Rattle.bl_plain.specs.Walk.{Varies, Among, AnswersAt, Improves, IsAnswer};

use crate::best::{Best, Optimum, offer};
use crate::follower::least_cost;
use bl_model::Bilevel;
use std::alloc::{AllocError, Global};

// Takes the best of the points that vary `z` on these columns, meet all rows and cost the follower
// this much.
#[cycle(responses)]
fn try_responses(model: &Bilevel, z: &mut [i64], columns: &[u32], least: i64, best: &mut Best)
    requires point { InBox model.now z.old }
    requires columns { All (λ c. c < column_count model.now) columns.now }
    requires room { length best.old.point ≡ column_count model.now }
    ensures best { Improves model.now
        (Among model.now columns.now z.old (AnswersAt model.now least)) best.old best.new }
    ensures point { Varies model.now columns.now z.old z.new }
    ensures room { length best.new.point ≡ column_count model.now }
{
    match columns {
        [] => offer(model, z, least, best),
        [column, rest @ ..] => try_values(model, z, *column as usize, rest, least, best),
    }
}

// The same of one column and further ones.
#[cycle(responses)]
fn try_values(
    model: &Bilevel,
    z: &mut [i64],
    column: usize,
    rest: &[u32],
    least: i64,
    best: &mut Best,
)
    requires point { InBox model.now z.old }
    requires column { column < column_count model.now }
    requires rest { All (λ c. c < column_count model.now) rest.now }
    requires room { length best.old.point ≡ column_count model.now }
    ensures best { Improves model.now
        (Among model.now (column ∷ rest.now) z.old (AnswersAt model.now least)) best.old best.new }
    ensures point { Varies model.now (column ∷ rest.now) z.old z.new }
    ensures room { length best.new.point ≡ column_count model.now }
{
    for value in model.lo()[column]..model.hi()[column] + 1 {
        z[column] = value;
        try_responses(model, z, rest, least, best);
    }
}

// Takes the best of the bilevel feasible points that vary `z` on these columns of the leader and on
// those of the follower.
#[cycle(leaders)]
fn try_leaders(model: &Bilevel, z: &mut [i64], columns: &[u32], best: &mut Best)
    requires point { InBox model.now z.old }
    requires columns { All (λ c. c < column_count model.now) columns.now }
    requires room { length best.old.point ≡ column_count model.now }
    ensures best { Improves model.now
        (Among model.now (columns.now ++ model.now.follower) z.old (BilevelFeasible model.now)) best.old best.new }
    ensures point { Varies model.now (columns.now ++ model.now.follower) z.old z.new }
    ensures room { length best.new.point ≡ column_count model.now }
{
    match columns {
        [] => try_follower(model, z, best),
        [column, rest @ ..] => try_choices(model, z, *column as usize, rest, best),
    }
}

// The same of one column and further ones.
#[cycle(leaders)]
fn try_choices(model: &Bilevel, z: &mut [i64], column: usize, rest: &[u32], best: &mut Best)
    requires point { InBox model.now z.old }
    requires column { column < column_count model.now }
    requires rest { All (λ c. c < column_count model.now) rest.now }
    requires room { length best.old.point ≡ column_count model.now }
    ensures best { Improves model.now (Among model.now (column ∷ (rest.now ++ model.now.follower)) z.old
        (BilevelFeasible model.now)) best.old best.new }
    ensures point { Varies model.now (column ∷ (rest.now ++ model.now.follower)) z.old z.new }
    ensures room { length best.new.point ≡ column_count model.now }
{
    for value in model.lo()[column]..model.hi()[column] + 1 {
        z[column] = value;
        try_leaders(model, z, rest, best);
    }
}

// The best of the bilevel feasible points with the leader's values of `z`: two walks of the
// follower's columns, one for his least cost and one for the points of that cost that meet all rows.
fn try_follower(model: &Bilevel, z: &mut [i64], best: &mut Best)
    requires point { InBox model.now z.old }
    requires room { length best.old.point ≡ column_count model.now }
    ensures best { Improves model.now
        (Among model.now model.now.follower z.old (BilevelFeasible model.now)) best.old best.new }
    ensures point { Varies model.now model.now.follower z.old z.new }
    ensures room { length best.new.point ≡ column_count model.now }
{
    let columns = model.follower();
    if let Some(least) = least_cost(model, z, columns) {
        try_responses(model, z, columns, least, best);
    }
}

// The columns that aren't the follower's, in rising order.
fn leader_columns(alloc: Global, model: &Bilevel) -> Result<Vec<u32>, AllocError>
    ensures below { IfOk result (λ v. All (λ c. c < column_count model.now) v.items) }
    ensures all { IfOk result (λ v. (k : ℕ) → k < column_count model.now → Contains (v.items ++ model.now.follower) k) }
{
    let follower = model.follower();
    let mut columns = Vec::new(alloc);
    for column in 0..model.lo().len() as u32 {
        if !follower.contains(&column) {
            columns.push(column)?;
        }
    }
    Ok(columns)
}

/// An optimal point of a bilevel program with its cost to the leader, and `None` where no point is
/// bilevel feasible.
///
/// It walks every point of the box: for each list of leader values the follower's columns once for
/// its least cost, and once for the points at that cost that meet all rows. Memory is taken as it
/// begins, and for no point.
pub fn plain_best(alloc: Global, model: &Bilevel) -> Result<Option<Optimum>, AllocError>
    ensures { IfOk result (λ found. IsAnswer model.now found) }
{
    let columns = leader_columns(alloc, model)?;
    let mut z = model.lo().to_vec(alloc)?;
    let mut best = Best {
        point: model.lo().to_vec(alloc)?,
        cost: None,
    };
    try_leaders(model, &mut z, &columns, &mut best);
    Ok(best.into_optimum())
}
