//! The point that whole distances give.
ghost use Rattle.std.specs.Prelude.{◌≡◌, ◌≢◌, ℕ, ◌<◌, pos, negsuc, ◌+ℤ◌, ◌-ℤ◌, ◌*ℤ◌, int_lt, length};
ghost use Rattle.std.specs.Prelude.{if◌then◌else◌, true, false, IfOk};
ghost use Rattle.bl_limits.specs.declared.TheConstants.{MAX_NUMBER};
ghost use Rattle.bl_whole.specs.Sums.{component};
ghost use Rattle.bl_whole.specs.Within.{IsWithin};
ghost use Rattle.bl_terms.specs.Bounds.{Fits};
ghost use Rattle.bl_simplex.specs.Dictionaries.{columns};
ghost use Rattle.bl_simplex.specs.Rationals.{fraction_at};
ghost use Rattle.bl_licence.specs.Steps.{IsBetween};
ghost use Rattle.bl_vertex.specs.Optima.{AreAllWhole, IsPointAt};

use bl_bound::Problem;
use bl_frac::{Frac, is_whole, parts};
use std::alloc::{AllocError, Global};

/// Whether every distance is whole.
pub(crate) fn are_whole(distances: &[Frac]) -> bool
    ensures whole { result ≡ true → (j : ℕ) → j < length distances.now → (fraction_at distances.now j).den ≡ 1 }
    ensures other { result ≡ false
        → (j : ℕ) × (j < length distances.now) × ((fraction_at distances.now j).den ≢ 1) }
{
    for j in 0..distances.len() {
        if !is_whole(distances[j]) {
            return false;
        }
    }
    true
}

/// A column at a whole distance from its start.
fn column_at(cost: i64, lo: i64, hi: i64, distance: Frac) -> i64
    requires low { IsWithin MAX_NUMBER lo }
    requires high { IsWithin MAX_NUMBER hi }
    requires whole { distance.den ≡ 1 }
    requires in_range { IsBetween (hi -ℤ lo) distance }
    ensures { result ≡ (if int_lt cost (pos 0) then hi else lo)
        +ℤ (if int_lt cost (pos 0) then negsuc 0 else pos 1) *ℤ distance.num }
{
    let (num, _) = parts(distance);
    let steps = num as i64;
    if cost < 0 { hi - steps } else { lo + steps }
}

/// The point at whole distances of the columns from their starts.
pub(crate) fn whole_point(
    alloc: Global,
    problem: &Problem<'_>,
    distances: &[Frac],
) -> Result<Vec<i64>, AllocError>
    requires problem_fits { Fits problem.now }
    requires size { length distances.now ≡ columns problem.now }
    requires whole { AreAllWhole problem.now distances.now }
    requires in_box { (j : ℕ) → j < columns problem.now
        → IsBetween (component problem.now.area.hi j -ℤ component problem.now.area.lo j) (fraction_at distances.now j) }
    ensures { IfOk result (λ v. IsPointAt problem.now distances.now v.items) }
{
    let cost = problem.cost();
    let lo = problem.lo();
    let hi = problem.hi();
    let mut point = Vec::with_capacity(alloc, distances.len())?;
    for j in 0..distances.len() {
        let column = column_at(cost[j], lo[j], hi[j], distances[j]);
        point.push(column)?;
    }
    Ok(point)
}
