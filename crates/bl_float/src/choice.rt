//! Which variable leaves the basis, and which enters it.
//!
//! The leaving row has the greatest squared distance from its range over its Devex weight (Forrest and Goldfarb 1992).
//! The ratio test passes the columns that may go to the other end of their ranges while the leaving variable still
//! lies outside of its own (Maros 2003, the bound flipping ratio test), and takes the greatest entry among ratios that
//! are equal up to a tolerance (Harris 1973). After pivots without progress both choices go by the least label.
use crate::dictionary::{Basic, Dictionary, LEAST_ENTRY, Leaving, Nonbasic};
use crate::numbers::{at, put, row_of};

/// How far outside of its range a basic variable counts as outside, and the share of the range's end that is added.
const LEAST_DISTANCE: f64 = 1e-9;

const LEAST_SHARE: f64 = 1e-13;

/// By how much a reduced cost may be on its wrong side.
pub(crate) const LEAST_COST: f64 = 1e-9;

/// How a choice is made among those that are possible.
#[derive(Clone, Copy, Debug, PartialEq)]
pub(crate) enum Rule {
    Steepest,
    LeastLabel,
}

/// How far a basic variable is outside of its range, and where it would go; none where it lies inside.
fn outside(row: usize, variable: &Basic) -> Option<(Leaving, f64)> {
    let rise = variable.low - variable.value;
    let fall = variable.value - variable.high;
    let rises = rise > fall;
    let (target, distance) = if rises {
        (variable.low, rise)
    } else {
        (variable.high, fall)
    };
    if distance > LEAST_DISTANCE + LEAST_SHARE * target.abs() {
        let leaving = Leaving { row, target, rises };
        Some((leaving, distance))
    } else {
        None
    }
}

/// The variable that leaves: none where each lies in its range.
pub(crate) fn leaving_row(basic: &[Basic], rule: Rule) -> Option<Leaving> {
    let mut best = None;
    let mut greatest = f64::NEG_INFINITY;
    for (row, variable) in basic.iter().enumerate() {
        if let Some((leaving, distance)) = outside(row, variable) {
            let score = match rule {
                Rule::Steepest => distance * distance / variable.weight,
                Rule::LeastLabel => -f64::from(variable.label),
            };
            if score > greatest {
                greatest = score;
                best = Some(leaving);
            }
        }
    }
    best
}

/// A column that may enter.
#[derive(Clone, Copy, Debug)]
struct Candidate {
    column: usize,
    gain: f64,
    label: u32,
}

impl Dictionary {
    /// Writes for each column how much the leaving variable gains by a unit of it, where that is a gain.
    fn write_gains(&mut self, leaving: Leaving) {
        let sign = if leaving.rises { 1.0 } else { -1.0 };
        let width = self.width();
        let Some(row) = row_of(&self.entries, width, leaving.row) else {
            return;
        };
        for ((gain, entry), variable) in self
            .gains
            .iter_mut()
            .zip(row.iter())
            .zip(self.nonbasic.iter())
        {
            let g = sign * *entry * variable.side;
            *gain = if g > LEAST_ENTRY { g } else { 0.0 };
        }
    }

    /// The least ratio of reduced cost and gain, with a tolerance in the cost.
    fn least_ratio(&self, tolerance: f64) -> f64 {
        let mut least = f64::INFINITY;
        for ((gain, cost), variable) in self
            .gains
            .iter()
            .zip(self.reduced.iter())
            .zip(self.nonbasic.iter())
        {
            if *gain > 0.0 {
                let ratio = ((*cost * variable.side).max(0.0) + tolerance) / *gain;
                least = least.min(ratio);
            }
        }
        least
    }

    /// The column with the greatest gain, or the one with the least label, among those whose ratio is at most this one.
    fn best_candidate(&self, most: f64, rule: Rule) -> Option<Candidate> {
        let mut best: Option<Candidate> = None;
        for (column, ((gain, cost), variable)) in self
            .gains
            .iter()
            .zip(self.reduced.iter())
            .zip(self.nonbasic.iter())
            .enumerate()
        {
            if *gain > 0.0 && (*cost * variable.side).max(0.0) <= most * *gain {
                let next = Candidate {
                    column,
                    gain: *gain,
                    label: variable.label,
                };
                best = Some(better(best, next, rule));
            }
        }
        best
    }

    /// The column that enters for a leaving variable: none where all columns together don't bring it into its range.
    /// The columns that the ratio test passes have negated gains afterwards.
    pub(crate) fn entering_column(&mut self, leaving: Leaving, rule: Rule) -> Option<usize> {
        self.write_gains(leaving);
        let value = match self.basic.get(leaving.row) {
            Some(variable) => variable.value,
            None => return None,
        };
        let mut left = (leaving.target - value).abs() - LEAST_DISTANCE;
        let tolerance = match rule {
            Rule::Steepest => LEAST_COST,
            Rule::LeastLabel => 0.0,
        };
        for _ in 0..self.nonbasic.len() {
            let most = self.least_ratio(tolerance);
            let candidate = self.best_candidate(most, rule)?;
            left -= candidate.gain * self.range_length(candidate.column);
            if !(left > 0.0) {
                return Some(candidate.column);
            }
            put(&mut self.gains, candidate.column, -candidate.gain);
        }
        None
    }

    /// The length of the range of a nonbasic variable.
    fn range_length(&self, column: usize) -> f64 {
        match self.nonbasic.get(column) {
            Some(variable) => variable.high - variable.low,
            None => 0.0,
        }
    }

    /// Moves the columns that the ratio test passed to the other ends of their ranges.
    pub(crate) fn flip_passed(&mut self) {
        for column in 0..self.nonbasic.len() {
            if at(&self.gains, column) < 0.0 {
                self.flip(column);
            }
        }
    }

    /// Moves a nonbasic variable to the other end of its range.
    fn flip(&mut self, column: usize) {
        let Some(variable) = self.nonbasic.get_mut(column) else {
            return;
        };
        let level = if variable.side > 0.0 {
            variable.high
        } else {
            variable.low
        };
        variable.side = -variable.side;
        self.move_to(column, level);
    }
}

/// The candidate that goes before the other.
fn better(best: Option<Candidate>, next: Candidate, rule: Rule) -> Candidate {
    match best {
        Some(best) => {
            let wins = match rule {
                Rule::Steepest => next.gain > best.gain,
                Rule::LeastLabel => next.label < best.label,
            };
            if wins { next } else { best }
        }
        None => next,
    }
}
