//! The floor of a fractional column.
ghost use Rattle.std.specs.Prelude.{◌≡◌, ◌≤◌, length, IfSome};
ghost use Rattle.bl_limits.specs.declared.TheConstants.{MAX_COLUMNS};
ghost use Rattle.bl_terms.specs.Trees.{CanSplit};

use crate::place::{Place, can_split};
use bl_frac::{Frac, floor, is_whole};

/// The greatest whole number that isn't above a column at a distance from its start that isn't whole.
fn floor_at(cost: i64, lo: i64, hi: i64, distance: Frac) -> i64 {
    let below = i64::try_from(floor(distance)).unwrap_or(i64::MAX);
    if cost < 0 {
        hi.saturating_sub(below).saturating_sub(1)
    } else {
        lo.saturating_add(below)
    }
}

/// The first of these columns that isn't whole, at its floor.
fn first_of(
    cost: &[i64],
    lo: &[i64],
    hi: &[i64],
    distances: &[Frac],
    columns: &[u32],
) -> Option<Place>
    requires sides { length hi.now ≡ length lo.now }
    requires costs { length cost.now ≡ length lo.now }
{
    for j in 0..columns.len() {
        let column = columns[j];
        let k = column as usize;
        if k < lo.len() && k < distances.len() && !is_whole(distances[k]) {
            let at = floor_at(cost[k], lo[k], hi[k], distances[k]);
            return Some(Place { column, at });
        }
    }
    None
}

/// The first column that isn't whole, at its floor.
fn first_of_all(cost: &[i64], lo: &[i64], hi: &[i64], distances: &[Frac]) -> Option<Place>
    requires sides { length hi.now ≡ length lo.now }
    requires costs { length cost.now ≡ length lo.now }
    requires few { length lo.now ≤ MAX_COLUMNS }
{
    for j in 0..distances.len().min(lo.len()) {
        if !is_whole(distances[j]) {
            let column = j as u32;
            let at = floor_at(cost[j], lo[j], hi[j], distances[j]);
            return Some(Place { column, at });
        }
    }
    None
}

/// Where a fractional point splits the box: at the floor of the first column that isn't whole, those in `preferred`
/// before all others. The point is told by the distance of each column from its start, the end of its range at which it
/// costs least. None where no column of the point splits the box.
pub fn fractional(
    cost: &[i64],
    lo: &[i64],
    hi: &[i64],
    distances: &[Frac],
    preferred: &[u32],
) -> Option<Place>
    requires sides { length hi.now ≡ length lo.now }
    requires costs { length cost.now ≡ length lo.now }
    requires few { length lo.now ≤ MAX_COLUMNS }
    ensures { IfSome result (λ place. CanSplit (record { lo = lo.now; hi = hi.now }) place.column place.at) }
{
    let place = match first_of(cost, lo, hi, distances, preferred) {
        Some(place) => place,
        None => first_of_all(cost, lo, hi, distances)?,
    };
    if can_split(lo, hi, place.column as usize, place.at) {
        Some(place)
    } else {
        None
    }
}
