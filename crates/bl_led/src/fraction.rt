//! A licence to split the box, made of a fractional point in doubles and tested exactly.
ghost use Rattle.std.specs.Prelude.{IfOk, IfSome};
ghost use Rattle.bl_terms.specs.Bounds.{Fits};
ghost use Rattle.bl_relax.specs.Relaxed.{IsRelaxed};

use bl_bound::Problem;
use bl_float::FINE_UNIT;
use bl_frac::{Frac, reduced};
use bl_licence::{Why, why_holds};
use bl_raw::Listed;
use bl_relax::Relaxed;
use std::alloc::{AllocError, Global};
use std::num::{nearest_i64_to_f64, saturating_f64_to_i64};

/// How far a fraction may be from the number that it stands for.
const TOLERANCE: f64 = 1e-9;

/// The greatest denominator that is tried.
const MAX_DENOMINATOR: f64 = 4096.0;

/// The same of a refined number: how many parts of its unit, and the denominator, `2^24`.
const FINE_TOLERANCE: i128 = 1024;

const MAX_FINE_DENOMINATOR: i128 = 1 << 24;

/// The most steps of a continued fraction.
const MAX_STEPS: u32 = 40;

/// The multiples of a power of 1/2.
#[derive(Clone, Copy, Debug)]
pub(crate) struct Grid {
    pub(crate) halvings: u32,
    /// How many parts 1 has: 2 to the halvings.
    pub(crate) parts: f64,
}

/// A ratio of whole numbers in doubles.
#[derive(Clone, Copy, Debug)]
struct Ratio {
    num: f64,
    den: f64,
}

/// The first convergent of the continued fraction of a number, not below 0, that is near it.
fn simplest_ratio(number: f64) -> Option<Ratio> {
    let mut before = Ratio { num: 1.0, den: 0.0 };
    let mut last = Ratio {
        num: number.floor(),
        den: 1.0,
    };
    let mut rest = number - last.num;
    for _ in 0..MAX_STEPS {
        if (number * last.den - last.num).abs() <= TOLERANCE * last.den {
            return Some(last);
        }
        let inverse = 1.0 / rest;
        let part = inverse.floor();
        rest = inverse - part;
        let next = Ratio {
            num: part * last.num + before.num,
            den: part * last.den + before.den,
        };
        if !(next.den <= MAX_DENOMINATOR) {
            return None;
        }
        before = last;
        last = next;
    }
    None
}

/// The simplest fraction near a number that isn't below 0.
fn simplest_fraction(number: f64) -> Option<Frac> {
    let ratio = simplest_ratio(number)?;
    let num = saturating_f64_to_i64(ratio.num);
    let den = saturating_f64_to_i64(ratio.den);
    reduced(i128::from(num), i128::from(den))
}

/// The first convergent of the continued fraction of a number of parts of [`FINE_UNIT`], not below 0, that is near it.
fn fine_fraction(parts: i128) -> Option<Frac> {
    let (mut num_before, mut den_before) = (1i128, 0i128);
    let (mut num, mut den) = (parts.div_euclid(FINE_UNIT), 1i128);
    let (mut whole, mut rest) = (FINE_UNIT, parts.rem_euclid(FINE_UNIT));
    for _ in 0..MAX_STEPS {
        let error = parts
            .checked_mul(den)?
            .checked_sub(num.checked_mul(FINE_UNIT)?)?;
        if error.checked_abs()? <= FINE_TOLERANCE.checked_mul(den)? {
            return reduced(num, den);
        }
        let part = whole.checked_div(rest)?;
        (whole, rest) = (rest, whole.checked_rem(rest)?);
        (num_before, num) = (num, part.checked_mul(num)?.checked_add(num_before)?);
        (den_before, den) = (den, part.checked_mul(den)?.checked_add(den_before)?);
        if den > MAX_FINE_DENOMINATOR {
            return None;
        }
    }
    None
}

/// How many parts of [`FINE_UNIT`] a column is from its start, at least 0.
fn fine_distance(cost: i64, lo: i64, hi: i64, column: i128) -> i128 {
    let start = if cost < 0 { hi } else { lo };
    let moved = column.saturating_sub(i128::from(start).saturating_mul(FINE_UNIT));
    let distance = if cost < 0 {
        moved.saturating_neg()
    } else {
        moved
    };
    distance.max(0)
}

/// The distances of the columns from their starts as the simplest fractions near them, if each has one.
fn fine_fractions(
    alloc: Global,
    problem: &Problem<'_>,
    point: &[i128],
) -> Result<Option<Vec<Frac>>, AllocError> {
    let mut distances = Vec::with_capacity(alloc, point.len())?;
    for (((cost, lo), hi), column) in problem
        .cost()
        .iter()
        .zip(problem.lo().iter())
        .zip(problem.hi().iter())
        .zip(point.iter())
    {
        let Some(fraction) = fine_fraction(fine_distance(*cost, *lo, *hi, *column)) else {
            return Ok(None);
        };
        distances.push(fraction)?;
    }
    Ok(Some(distances))
}

/// The fraction of a grid that is nearest to a number that isn't below 0.
fn fraction_on(number: f64, grid: Grid) -> Option<Frac> {
    let count = saturating_f64_to_i64(number * grid.parts + 0.5);
    let halved = count.trailing_zeros().min(grid.halvings);
    let num = count.checked_shr(halved)?;
    let den = 1i64.checked_shl(grid.halvings.saturating_sub(halved))?;
    reduced(i128::from(num), i128::from(den))
}

/// Which fractions stand for numbers.
#[derive(Clone, Copy, Debug)]
enum Form {
    Simplest,
    On(Grid),
}

/// How far a column is from its start, the end of its range at which it costs least.
fn distance_from_start(cost: i64, lo: i64, hi: i64, column: f64) -> f64 {
    let distance = if cost < 0 {
        nearest_i64_to_f64(hi) - column
    } else {
        column - nearest_i64_to_f64(lo)
    };
    distance.max(0.0)
}

/// The distances of the columns from their starts as fractions near them, if each has one.
fn fractions_of(
    alloc: Global,
    problem: &Problem<'_>,
    point: &[f64],
    form: Form,
) -> Result<Option<Vec<Frac>>, AllocError> {
    let mut distances = Vec::with_capacity(alloc, point.len())?;
    for (((cost, lo), hi), column) in problem
        .cost()
        .iter()
        .zip(problem.lo().iter())
        .zip(problem.hi().iter())
        .zip(point.iter())
    {
        let distance = distance_from_start(*cost, *lo, *hi, *column);
        let fraction = match form {
            Form::Simplest => simplest_fraction(distance),
            Form::On(grid) => fraction_on(distance, grid),
        };
        let Some(fraction) = fraction else {
            return Ok(None);
        };
        distances.push(fraction)?;
    }
    Ok(Some(distances))
}

/// The licence of these distances, if it holds.
fn shown_licence(
    alloc: Global,
    problem: &Problem<'_>,
    cutoff: Option<i64>,
    distances: Vec<Frac>,
) -> Result<Option<Relaxed>, AllocError>
    requires { Fits problem.now }
    ensures { IfOk result (λ o. IfSome o (IsRelaxed problem.now cutoff)) }
{
    let why = Why::Fraction(Listed::new(distances));
    if why_holds(alloc, problem, cutoff, &why)? {
        return Ok(Some(Relaxed::Stuck(why)));
    }
    Ok(None)
}

/// The licence of the simplest fractions near a point, if it holds.
pub(crate) fn simplest_licence(
    alloc: Global,
    problem: &Problem<'_>,
    cutoff: Option<i64>,
    point: &[f64],
) -> Result<Option<Relaxed>, AllocError>
    requires { Fits problem.now }
    ensures { IfOk result (λ o. IfSome o (IsRelaxed problem.now cutoff)) }
{
    let Some(distances) = fractions_of(alloc, problem, point, Form::Simplest)? else {
        return Ok(None);
    };
    shown_licence(alloc, problem, cutoff, distances)
}

/// The licence of a point, rounded to a grid, if it holds.
pub(crate) fn licence_on(
    alloc: Global,
    problem: &Problem<'_>,
    cutoff: Option<i64>,
    point: &[f64],
    grid: Grid,
) -> Result<Option<Relaxed>, AllocError>
    requires { Fits problem.now }
    ensures { IfOk result (λ o. IfSome o (IsRelaxed problem.now cutoff)) }
{
    let Some(distances) = fractions_of(alloc, problem, point, Form::On(grid))? else {
        return Ok(None);
    };
    shown_licence(alloc, problem, cutoff, distances)
}

/// The licence of the simplest fractions near a refined point, if it holds.
pub(crate) fn fine_licence(
    alloc: Global,
    problem: &Problem<'_>,
    cutoff: Option<i64>,
    point: &[i128],
) -> Result<Option<Relaxed>, AllocError>
    requires { Fits problem.now }
    ensures { IfOk result (λ o. IfSome o (IsRelaxed problem.now cutoff)) }
{
    let Some(distances) = fine_fractions(alloc, problem, point)? else {
        return Ok(None);
    };
    shown_licence(alloc, problem, cutoff, distances)
}
