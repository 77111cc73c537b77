//! Whole points near a fractional one, each tested exactly.
ghost use Rattle.std.specs.Prelude.{IfOk, IfSome};
ghost use Rattle.bl_terms.specs.Bounds.{Fits};
ghost use Rattle.bl_relax.specs.Relaxed.{IsRelaxed};

use crate::repair::Repair;
use bl_bound::Problem;
use bl_point::whole_at;
use bl_raw::Listed;
use bl_relax::Relaxed;
use std::alloc::{AllocError, Global};
use std::num::saturating_f64_to_i64;

/// How near to a whole number a column counts as whole.
const WHOLE_TOLERANCE: f64 = 1e-6;

/// Where a column goes that isn't whole.
#[derive(Clone, Copy, Debug, PartialEq)]
enum Direction {
    Nearest,
    TowardStart,
    FromStart,
    /// Away from its start, unless more rows lose by that than gain.
    AsRowsLike,
}

/// Whether a column leaves its start, the upper end of its range where its cost is below 0. The balance of the rows is
/// how many more of them lose than gain where the column rises.
fn leaves_start(direction: Direction, cost: i64, balance: i64) -> bool {
    match direction {
        Direction::TowardStart => false,
        Direction::Nearest | Direction::FromStart => true,
        Direction::AsRowsLike if cost < 0 => balance >= 0,
        Direction::AsRowsLike => balance <= 0,
    }
}

/// A column, made whole.
fn rounded(value: f64, cost: i64, balance: i64, direction: Direction) -> i64 {
    let nearest = (value + 0.5).floor();
    let is_whole = (value - nearest).abs() <= WHOLE_TOLERANCE;
    if is_whole || direction == Direction::Nearest {
        return saturating_f64_to_i64(nearest);
    }
    let below = value.floor();
    let falls = leaves_start(direction, cost, balance) == (cost < 0);
    saturating_f64_to_i64(if falls { below } else { below + 1.0 })
}

/// Writes the columns' values, each made whole.
fn write_rounded(
    problem: &Problem<'_>,
    values: &[f64],
    balances: &[i64],
    direction: Direction,
    point: &mut Vec<i64>,
) -> Result<(), AllocError> {
    point.clear();
    for (column, (value, cost)) in values.iter().zip(problem.cost().iter()).enumerate() {
        let balance = balances.get(column).copied().unwrap_or(0);
        point.push(rounded(*value, *cost, balance, direction))?;
    }
    Ok(())
}

/// The answer of a point, if it lies in the box, meets the rows and costs less than the cutoff.
fn shown_point(
    alloc: Global,
    problem: &Problem<'_>,
    cutoff: Option<i64>,
    point: &[i64],
) -> Result<Option<Relaxed>, AllocError>
    requires { Fits problem.now }
    ensures { IfOk result (λ o. IfSome o (IsRelaxed problem.now cutoff)) }
{
    if !whole_at(problem, cutoff, point) {
        return Ok(None);
    }
    let copy = Vec::from_slice(alloc, point)?;
    Ok(Some(Relaxed::Whole(Listed::new(copy))))
}

/// The answer of one of the plain roundings of the fractional point, itself where it is whole.
fn rounding_shown(
    alloc: Global,
    problem: &Problem<'_>,
    cutoff: Option<i64>,
    values: &[f64],
    point: &mut Vec<i64>,
) -> Result<Option<Relaxed>, AllocError>
    requires { Fits problem.now }
    ensures { IfOk result (λ o. IfSome o (IsRelaxed problem.now cutoff)) }
{
    for direction in [
        Direction::Nearest,
        Direction::TowardStart,
        Direction::FromStart,
    ] {
        write_rounded(problem, values, &[], direction, point)?;
        let shown = shown_point(alloc, problem, cutoff, point)?;
        if shown.is_some() {
            return Ok(shown);
        }
    }
    Ok(None)
}

/// The answer of the rounding that the rows like, or of the nearest one with its rows repaired.
fn repair_shown(
    alloc: Global,
    problem: &Problem<'_>,
    cutoff: Option<i64>,
    values: &[f64],
    point: &mut Vec<i64>,
    repair: &mut Repair,
) -> Result<Option<Relaxed>, AllocError>
    requires { Fits problem.now }
    ensures { IfOk result (λ o. IfSome o (IsRelaxed problem.now cutoff)) }
{
    let balances = repair.balances(problem)?;
    write_rounded(problem, values, balances, Direction::AsRowsLike, point)?;
    let shown = shown_point(alloc, problem, cutoff, point)?;
    if shown.is_some() {
        return Ok(shown);
    }
    write_rounded(problem, values, &[], Direction::Nearest, point)?;
    repair.repair(problem, point)?;
    shown_point(alloc, problem, cutoff, point)
}

/// A whole point near the fractional one that meets the rows below the cutoff: the fractional one itself where it is
/// whole, else one of its roundings, else one of them with its rows repaired, which is tried less often the more often
/// it fails.
pub(crate) fn whole_near(
    alloc: Global,
    problem: &Problem<'_>,
    cutoff: Option<i64>,
    values: &[f64],
    point: &mut Vec<i64>,
    repair: &mut Repair,
) -> Result<Option<Relaxed>, AllocError>
    requires { Fits problem.now }
    ensures { IfOk result (λ o. IfSome o (IsRelaxed problem.now cutoff)) }
{
    let shown = rounding_shown(alloc, problem, cutoff, values, point)?;
    if shown.is_some() || !repair.is_due() {
        return Ok(shown);
    }
    let shown = repair_shown(alloc, problem, cutoff, values, point, repair)?;
    repair.note(shown.is_some());
    Ok(shown)
}
