//! The test of a fractional point.
ghost use Rattle.std.specs.Prelude.{◌≡◌, ◌≢◌, ◌↔◌, ℕ, ◌+◌, ◌*◌, ◌^◌, ◌<◌, ◌≤◌, IsTrue, IfOk, length, pos, negsuc, ◌+ℤ◌};
ghost use Rattle.std.specs.Prelude.{◌-ℤ◌, ◌*ℤ◌, ◌≤ℤ◌, int_lt, if◌then◌else◌, FitsSigned, MatchOption};
ghost use Rattle.std.specs.Int.{w64, w128, ◌∣◌};
ghost use Rattle.bl_limits.specs.declared.TheConstants.{MAX_COLUMNS, MAX_NUMBER, MAX_PROBLEM_COEFFICIENT};
ghost use Rattle.bl_whole.specs.Sums.{component, dot as dot_of};
ghost use Rattle.bl_whole.specs.Within.{IsWithin, AreWithin, PartialDotsFit};
ghost use Rattle.bl_terms.specs.Bounds.{Fits, linear_at};
ghost use Rattle.bl_simplex.specs.Fractions.{IsReduced};
ghost use Rattle.bl_simplex.specs.Rationals.{fraction_at, times_multiple, IsAtMost, common_denominator as common_of};
ghost use Rattle.bl_simplex.specs.Dictionaries.{columns};
ghost use Rattle.bl_simplex.specs.Licences.{IsFractional, rational_dot, moved as moved_of, IsBelowCutoff};
ghost use Rattle.bl_tableau.specs.Cells.{AreReduced};
ghost use Rattle.bl_licence.specs.Steps.{IsBetween, IsScaledPoint, scaled_size};

use crate::common::{LIMIT, common_denominator};
use bl_bound::Problem;
use bl_frac::{Frac, compare, is_whole, parts, whole};
use bl_whole::int64;
use bl_whole::int128::times;
use std::alloc::{AllocError, Global};
use std::cmp::Ordering;

/// Whether a fraction is at most a whole number.
fn is_at_most_whole(x: Frac, most: i64) -> bool
    ensures { IsTrue result ↔ IsAtMost x most }
{
    match compare(x, whole(most)) {
        Ordering::Greater => false,
        _ => true,
    }
}

/// Whether a distance is from 0 to the length of its column's range.
fn is_in_range(distance: Frac, range: i64) -> bool
    ensures value { IsTrue result ↔ IsBetween range distance }
    ensures reduced { IsReduced distance }
{
    let (num, _) = parts(distance);
    0 <= num && is_at_most_whole(distance, range)
}

/// Whether each distance is from 0 to the length of its column's range.
fn are_in_range(problem: &Problem<'_>, distances: &[Frac]) -> bool
    requires problem_fits { Fits problem.now }
    requires size { length distances.now ≡ columns problem.now }
    ensures value { IsTrue result ↔ ((j : ℕ) → j < columns problem.now
        → IsBetween (component problem.now.area.hi j -ℤ component problem.now.area.lo j)
        (fraction_at distances.now j)) }
    ensures reduced { IsTrue result → AreReduced distances.now }
{
    let lo = problem.lo();
    let hi = problem.hi();
    for j in 0..distances.len() {
        let range = int64::minus(hi[j], lo[j]);
        if !is_in_range(distances[j], range) {
            return false;
        }
    }
    true
}

fn has_fraction(fractions: &[Frac]) -> bool
    ensures { IsTrue result ↔ ((j : ℕ) × (j < length fractions.now) × ((fraction_at fractions.now j).den ≢ 1)) }
{
    for j in 0..fractions.len() {
        if !is_whole(fractions[j]) {
            return true;
        }
    }
    false
}

/// A distance times a multiple of its denominator.
fn scaled_distance(distance: Frac, common: u128) -> i128
    requires multiple { distance.den ∣ common }
    requires small { common ≤ LIMIT }
    requires least { pos 0 ≤ℤ distance.num }
    requires most { IsAtMost distance (pos (2 * MAX_NUMBER)) }
    ensures value { result ≡ times_multiple common distance }
    ensures within { IsWithin (2 * (MAX_NUMBER * LIMIT)) result }
{
    let (num, den) = parts(distance);
    let share = common / den.unsigned_abs();
    num * share as i128
}

/// The end of a column's range at which it costs least.
fn start_of(cost: i64, lo: i64, hi: i64) -> i64
    ensures { result ≡ if int_lt cost (pos 0) then hi else lo }
{
    if cost < 0 { hi } else { lo }
}

/// A distance in the direction in which the column leaves its start.
fn directed(cost: i64, distance: i128) -> i128
    requires { IsWithin (2 * (MAX_NUMBER * LIMIT)) distance }
    ensures value { result ≡ (if int_lt cost (pos 0) then negsuc 0 else pos 1) *ℤ distance }
    ensures within { IsWithin (2 * (MAX_NUMBER * LIMIT)) result }
{
    if cost < 0 { -distance } else { distance }
}

/// A column times the common denominator: its start, and from there the distance.
fn scaled_column(start: i64, moved: i128, common: u128) -> i128
    requires start { IsWithin MAX_NUMBER start }
    requires small { common ≤ LIMIT }
    requires within { IsWithin (2 * (MAX_NUMBER * LIMIT)) moved }
    ensures value { result ≡ start *ℤ pos common +ℤ moved }
    ensures size { IsWithin scaled_size result }
{
    i128::from(start) * common as i128 + moved
}

/// The point times the common denominator.
fn scaled_point(
    alloc: Global,
    problem: &Problem<'_>,
    distances: &[Frac],
    common: u128,
) -> Result<Vec<i128>, AllocError>
    requires problem_fits { Fits problem.now }
    requires size { length distances.now ≡ columns problem.now }
    requires in_range { (j : ℕ) → j < columns problem.now
        → IsBetween (component problem.now.area.hi j -ℤ component problem.now.area.lo j) (fraction_at distances.now j) }
    requires small { common ≤ LIMIT }
    requires multiple { (j : ℕ) → j < columns problem.now → (fraction_at distances.now j).den ∣ common }
    ensures point { IfOk result (λ v. IsScaledPoint problem.now common (fraction_at distances.now) v.items) }
    ensures within { IfOk result (λ v. AreWithin scaled_size v.items) }
{
    let cost = problem.cost();
    let lo = problem.lo();
    let hi = problem.hi();
    let mut point = Vec::with_capacity(alloc, distances.len())?;
    for j in 0..distances.len() {
        let distance = scaled_distance(distances[j], common);
        let start = start_of(cost[j], lo[j], hi[j]);
        let moved = directed(cost[j], distance);
        let column = scaled_column(start, moved, common);
        point.push(column)?;
    }
    Ok(point)
}

/// The sum of the products at each place of `coefs`.
fn dot(coefs: &[i64], values: &[i128]) -> i128
    requires places { length values.now ≡ length coefs.now }
    requires products { (k : ℕ) → k < length coefs.now
        → FitsSigned w128 (component coefs.now k *ℤ component values.now k) }
    requires fits { PartialDotsFit w128 coefs.now values.now }
    ensures { result ≡ dot_of coefs.now values.now }
{
    let mut sum = 0;
    for k in 0..coefs.len() {
        sum = bl_whole::int128::plus_product(sum, i128::from(coefs[k]), values[k]);
    }
    sum
}

/// Whether the coefficients' value at the point is at most `rhs`, all times the common denominator.
fn is_at_most(coefs: &[i64], point: &[i128], rhs: i128, common: u128) -> bool
    requires places { length point.now ≡ length coefs.now }
    requires few { length coefs.now ≤ MAX_COLUMNS }
    requires coefs { AreWithin MAX_PROBLEM_COEFFICIENT coefs.now }
    requires point { AreWithin scaled_size point.now }
    requires rhs_fits { IsWithin (2 ^ 63 + 1) rhs }
    requires small { common ≤ LIMIT }
    ensures { IsTrue result ↔ (dot_of coefs.now point.now ≤ℤ (rhs *ℤ pos common)) }
{
    let sum = dot(coefs, point);
    let most = times(rhs, common as i128);
    sum <= most
}

/// Whether the point meets every row.
fn meets_rows(problem: &Problem<'_>, point: &[i128], common: u128) -> bool
    requires problem_fits { Fits problem.now }
    requires places { length point.now ≡ columns problem.now }
    requires point { AreWithin scaled_size point.now }
    requires small { common ≤ LIMIT }
    ensures { IsTrue result ↔ ((i : ℕ) → i < length problem.now.rows
        → dot_of (linear_at problem.now.rows i).coef point.now ≤ℤ ((linear_at problem.now.rows i).rhs *ℤ pos common)) }
{
    let rows = problem.rows();
    for i in 0..rows.len() {
        let row = &rows[i];
        if !is_at_most(row.coef(), point, i128::from(row.rhs()), common) {
            return false;
        }
    }
    true
}

/// Whether the point's cost is at most the cutoff less 1.
fn is_below_cutoff(problem: &Problem<'_>, cutoff: Option<i64>, point: &[i128], common: u128) -> bool
    requires problem_fits { Fits problem.now }
    requires places { length point.now ≡ columns problem.now }
    requires point { AreWithin scaled_size point.now }
    requires small { common ≤ LIMIT }
    ensures { IsTrue result
        ↔ MatchOption cutoff (Unit {0}) (λ u. dot_of problem.now.cost point.now ≤ℤ ((u -ℤ pos 1) *ℤ pos common)) }
{
    match cutoff {
        Some(cutoff) => is_at_most(problem.cost(), point, i128::from(cutoff) - 1, common),
        None => true,
    }
}

/// Whether these distances of the columns from their starts are a fractional point of the box that meets the rows
/// and is below the cutoff, with a common denominator within the limit of proof numbers.
pub fn is_fractional(
    alloc: Global,
    problem: &Problem<'_>,
    cutoff: Option<i64>,
    distances: &[Frac],
) -> Result<bool, AllocError>
    requires { Fits problem.now }
    ensures { IfOk result (λ b. IsTrue b ↔ IsFractional problem.now cutoff distances.now) }
{
    if distances.len() != problem.lo().len() || !are_in_range(problem, distances) {
        return Ok(false);
    }
    if !has_fraction(distances) {
        return Ok(false);
    }
    let Some(common) = common_denominator(distances) else {
        return Ok(false);
    };
    let point = scaled_point(alloc, problem, distances, common)?;
    if !meets_rows(problem, &point, common) {
        return Ok(false);
    }
    Ok(is_below_cutoff(problem, cutoff, &point, common))
}
