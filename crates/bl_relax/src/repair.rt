//! The repair of a whole point that breaks rows. No clause rests on it: what it leaves is tested.
ghost use Rattle.std.specs.Prelude.{◌≡◌, length};

use bl_bound::Problem;
use std::alloc::{AllocError, Global};

/// How many columns are stepped at most.
const MAX_STEPS: u32 = 10;

/// A column, and what is added to it.
#[derive(Clone, Copy, Debug)]
struct Step {
    column: usize,
    by: i64,
}

/// What the row's value at the point is above its right side.
fn excess(coef: &[i64], rhs: i64, point: &[i64]) -> i128 {
    let mut sum = i128::from(rhs).saturating_neg();
    for (a, x) in coef.iter().zip(point.iter()) {
        sum = sum.saturating_add(i128::from(*a).saturating_mul(i128::from(*x)));
    }
    sum
}

/// What each row's value at the point is above its right side.
fn excesses_of(
    alloc: Global,
    problem: &Problem<'_>,
    point: &[i64],
) -> Result<Vec<i128>, AllocError> {
    let rows = problem.rows();
    let mut list = Vec::with_capacity(alloc, rows.len())?;
    for row in rows {
        list.push(excess(row.coef(), row.rhs(), point))?;
    }
    Ok(list)
}

/// What a step adds to a row's value.
fn change(coef: &[i64], step: Step) -> i128 {
    match coef.get(step.column) {
        Some(a) => i128::from(*a).saturating_mul(i128::from(step.by)),
        None => 0,
    }
}

/// By how much the rows are broken together after a step.
fn broken_after(problem: &Problem<'_>, excesses: &[i128], step: Step) -> i128 {
    let mut sum: i128 = 0;
    for (row, excess) in problem.rows().iter().zip(excesses.iter()) {
        let excess = excess.saturating_add(change(row.coef(), step));
        sum = sum.saturating_add(excess.max(0));
    }
    sum
}

/// Whether a step stays in the box.
fn stays_inside(problem: &Problem<'_>, point: &[i64], step: Step) -> bool {
    match (
        point.get(step.column),
        problem.lo().get(step.column),
        problem.hi().get(step.column),
    ) {
        (Some(x), Some(lo), Some(hi)) => {
            let x = x.saturating_add(step.by);
            *lo <= x && x <= *hi
        }
        _ => false,
    }
}

/// The step after which the rows are broken least, where that is less than before.
fn best_step(problem: &Problem<'_>, point: &[i64], excesses: &[i128]) -> Option<Step> {
    let mut best = None;
    let mut least = broken_after(problem, excesses, Step { column: 0, by: 0 });
    for k in 0..point.len().saturating_mul(2) {
        let step = Step {
            column: k / 2,
            by: if k % 2 == 0 { 1 } else { -1 },
        };
        if stays_inside(problem, point, step) {
            let broken = broken_after(problem, excesses, step);
            if broken < least {
                least = broken;
                best = Some(step);
            }
        }
    }
    best
}

/// Steps a column.
fn take(problem: &Problem<'_>, point: &mut [i64], excesses: &mut [i128], step: Step) {
    if let Some(x) = point.get_mut(step.column) {
        *x = x.saturating_add(step.by);
    }
    for (row, excess) in problem.rows().iter().zip(excesses.iter_mut()) {
        *excess = excess.saturating_add(change(row.coef(), step));
    }
}

/// Steps single columns by one, as long as the rows are then broken by less, a few times at most.
pub(crate) fn repair(
    alloc: Global,
    problem: &Problem<'_>,
    point: &mut [i64],
) -> Result<(), AllocError> {
    let mut excesses = excesses_of(alloc, problem, point)?;
    for _ in 0..MAX_STEPS {
        let Some(step) = best_step(problem, point, &excesses) else {
            return Ok(());
        };
        take(problem, point, &mut excesses, step);
    }
    Ok(())
}
