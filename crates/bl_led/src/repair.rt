//! The repair of a whole point that breaks rows, in doubles. No clause rests on it: what it leaves is tested.
use bl_bound::Problem;
use std::alloc::{AllocError, Global};
use std::num::nearest_i64_to_f64;

/// How many columns are stepped at most.
const MAX_STEPS: u32 = 10;

/// How many calls pass at most before the next repair.
const MAX_WAIT: u32 = 64;

/// A column, and what is added to it.
#[derive(Clone, Copy, Debug)]
struct Step {
    column: usize,
    by: i64,
}

/// By how much the rows are broken together where a column is raised by 1, and where it is lowered.
#[derive(Clone, Copy, Debug)]
struct Broken {
    raised: f64,
    lowered: f64,
}

/// Room for the repair of points.
#[derive(Debug, Drop)]
pub(crate) struct Repair {
    /// What each row's value at the point is above its right side.
    excesses: Vec<f64>,
    broken: Vec<Broken>,
    balances: Vec<i64>,
    /// How many calls pass before the next repair.
    wait: u32,
    /// How many calls passed before the last one, twice, or 1 where it succeeded.
    longest: u32,
}

/// What the row's value at the point is above its right side.
fn excess(coef: &[i64], rhs: i64, point: &[i64]) -> f64 {
    let mut sum = -nearest_i64_to_f64(rhs);
    for (a, x) in coef.iter().zip(point.iter()) {
        sum += nearest_i64_to_f64(*a) * nearest_i64_to_f64(*x);
    }
    sum
}

/// Adds by how much a row is broken after each step.
fn add_row(broken: &mut [Broken], coef: &[i64], excess: f64) {
    for (sum, a) in broken.iter_mut().zip(coef.iter()) {
        let a = nearest_i64_to_f64(*a);
        sum.raised += (excess + a).max(0.0);
        sum.lowered += (excess - a).max(0.0);
    }
}

impl Repair {
    /// No room yet. Takes no memory.
    pub(crate) fn new(alloc: Global) -> Repair {
        Repair {
            excesses: Vec::new(alloc),
            broken: Vec::new(alloc),
            balances: Vec::new(alloc),
            wait: 0,
            longest: 1,
        }
    }

    /// Whether a repair is to be tried at this call.
    pub(crate) fn is_due(&mut self) -> bool {
        if self.wait == 0 {
            return true;
        }
        self.wait -= 1;
        false
    }

    /// Sets how many calls pass before the next repair: the more the more often it failed.
    pub(crate) fn note(&mut self, succeeded: bool) {
        self.longest = if succeeded {
            1
        } else {
            self.longest.saturating_mul(2).min(MAX_WAIT)
        };
        self.wait = if succeeded { 0 } else { self.longest };
    }

    /// For each column how many more rows lose than gain where it rises.
    pub(crate) fn balances(&mut self, problem: &Problem<'_>) -> Result<&[i64], AllocError> {
        self.balances.clear();
        for _ in problem.lo() {
            self.balances.push(0)?;
        }
        for row in problem.rows() {
            for (balance, coef) in self.balances.iter_mut().zip(row.coef().iter()) {
                *balance = balance.saturating_add(coef.signum());
            }
        }
        Ok(&self.balances)
    }

    fn write_excesses(&mut self, problem: &Problem<'_>, point: &[i64]) -> Result<(), AllocError> {
        self.excesses.clear();
        for row in problem.rows() {
            self.excesses.push(excess(row.coef(), row.rhs(), point))?;
        }
        Ok(())
    }

    /// Writes by how much the rows are broken after each step.
    fn write_broken(&mut self, problem: &Problem<'_>) -> Result<(), AllocError> {
        self.broken.clear();
        for _ in problem.lo() {
            self.broken.push(Broken {
                raised: 0.0,
                lowered: 0.0,
            })?;
        }
        for (row, excess) in problem.rows().iter().zip(self.excesses.iter()) {
            add_row(&mut self.broken, row.coef(), *excess);
        }
        Ok(())
    }

    /// By how much the rows are broken together.
    fn total(&self) -> f64 {
        let mut sum: f64 = 0.0;
        for excess in self.excesses.iter() {
            sum += excess.max(0.0);
        }
        sum
    }

    /// The step in the box after which the rows are broken least, where that is less than before.
    fn best_step(&self, problem: &Problem<'_>, point: &[i64]) -> Option<Step> {
        let mut best = None;
        let mut least = self.total();
        for (column, (((broken, x), lo), hi)) in self
            .broken
            .iter()
            .zip(point.iter())
            .zip(problem.lo().iter())
            .zip(problem.hi().iter())
            .enumerate()
        {
            if broken.raised < least && *x < *hi {
                least = broken.raised;
                best = Some(Step { column, by: 1 });
            }
            if broken.lowered < least && *lo < *x {
                least = broken.lowered;
                best = Some(Step { column, by: -1 });
            }
        }
        best
    }

    /// Steps a column.
    fn take(&mut self, problem: &Problem<'_>, point: &mut [i64], step: Step) {
        if let Some(x) = point.get_mut(step.column) {
            *x = x.saturating_add(step.by);
        }
        let by = nearest_i64_to_f64(step.by);
        for (row, excess) in problem.rows().iter().zip(self.excesses.iter_mut()) {
            if let Some(a) = row.coef().get(step.column) {
                *excess += nearest_i64_to_f64(*a) * by;
            }
        }
    }

    /// Steps single columns by one, as long as the rows are then broken by less, a few times at most.
    pub(crate) fn repair(
        &mut self,
        problem: &Problem<'_>,
        point: &mut [i64],
    ) -> Result<(), AllocError> {
        self.write_excesses(problem, point)?;
        for _ in 0..MAX_STEPS {
            self.write_broken(problem)?;
            let Some(step) = self.best_step(problem, point) else {
                return Ok(());
            };
            self.take(problem, point, step);
        }
        Ok(())
    }
}
