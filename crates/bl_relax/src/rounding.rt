//! Whole points near a fractional one.
ghost use Rattle.std.specs.Prelude.{◌≡◌, ◌<◌, length, IfOk};

use bl_bound::Problem;
use bl_frac::{Frac, floor, is_whole, parts};
use std::alloc::{AllocError, Global};

/// Where a column goes that isn't whole.
#[derive(Clone, Copy, Debug)]
pub(crate) enum Direction {
    Nearest,
    TowardStart,
    FromStart,
    /// Away from its start, unless more rows lose by that than gain.
    AsRowsLike,
}

/// Whether more rows lose than gain where a column leaves its start.
fn rows_lose(problem: &Problem<'_>, cost: i64, column: usize) -> bool {
    let mut balance: i64 = 0;
    for row in problem.rows() {
        if let Some(coef) = row.coef().get(column) {
            balance = balance.saturating_add(coef.signum());
        }
    }
    if cost < 0 { balance < 0 } else { balance > 0 }
}

/// Whether a distance is nearer to the whole number above it.
fn is_nearer_above(distance: Frac) -> bool {
    let (num, den) = parts(distance);
    num.rem_euclid(den) > den / 2
}

/// A distance, made whole.
fn rounded(distance: Frac, rises: bool) -> i64 {
    let below = i64::try_from(floor(distance)).unwrap_or(i64::MAX);
    if rises && !is_whole(distance) {
        below.saturating_add(1)
    } else {
        below
    }
}

/// The point at the distances of the columns from their starts, each made whole.
pub(crate) fn rounded_point(
    alloc: Global,
    problem: &Problem<'_>,
    distances: &[Frac],
    direction: Direction,
) -> Result<Vec<i64>, AllocError>
    requires { length distances.now ≡ length problem.now.area.lo }
{
    let cost = problem.cost();
    let lo = problem.lo();
    let hi = problem.hi();
    let mut point = Vec::with_capacity(alloc, distances.len())?;
    for j in 0..distances.len() {
        let rises = match direction {
            Direction::Nearest => is_nearer_above(distances[j]),
            Direction::TowardStart => false,
            Direction::FromStart => true,
            Direction::AsRowsLike => !rows_lose(problem, cost[j], j),
        };
        let distance = rounded(distances[j], rises);
        point.push(if cost[j] < 0 {
            hi[j].saturating_sub(distance)
        } else {
            lo[j].saturating_add(distance)
        })?;
    }
    Ok(point)
}
