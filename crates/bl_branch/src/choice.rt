//! Which column is split, and where.
use crate::numbers::at;
use crate::pseudo_costs::PseudoCosts;
use bl_bound::Problem;
use bl_float::FloatSimplex;
use bl_place::Place;
use std::num::{nearest_i64_to_f64, saturating_f64_to_i64};

/// How near to a whole number a column counts as whole.
const WHOLE_TOLERANCE: f64 = 1e-6;

/// The least gain that is reckoned with.
const LEAST_GAIN: f64 = 1e-6;

/// How much pseudo-costs and the narrowness of a range weigh beside the reduced cost, where a whole column is split.
const PSEUDO_COST_WEIGHT: f64 = 1e-3;

const NARROWNESS_WEIGHT: f64 = 1e-6;

/// A place, and by how much the split there moves the column in the low half and in the high one; 0 in a half that
/// keeps the point, of which nothing is to be learned.
#[derive(Clone, Copy, Debug)]
pub(crate) struct Choice {
    pub(crate) place: Place,
    score: f64,
    pub(crate) low: f64,
    pub(crate) high: f64,
}

/// The better one of two choices, the first one among equals.
fn better(best: Option<Choice>, choice: Option<Choice>) -> Option<Choice> {
    match (best, choice) {
        (Some(best), Some(choice)) if best.score >= choice.score => Some(best),
        (best, None) => best,
        (_, choice) => choice,
    }
}

/// The split of a column that isn't whole at its floor.
fn at_fraction(simplex: &FloatSimplex, costs: &PseudoCosts, column: u32) -> Option<Choice> {
    let value = at(simplex.point(), column as usize);
    if (value - (value + 0.5).floor()).abs() <= WHOLE_TOLERANCE {
        return None;
    }
    let floor = value.floor();
    let low = value - floor;
    let high = 1.0 - low;
    let down = costs.down(column) * low;
    let up = costs.up(column) * high;
    Some(Choice {
        place: Place {
            column,
            at: saturating_f64_to_i64(floor),
        },
        score: down.max(LEAST_GAIN) * up.max(LEAST_GAIN),
        low,
        high,
    })
}

/// The best split of the first columns at a number that isn't whole.
fn best_fraction(simplex: &FloatSimplex, costs: &PseudoCosts, columns: u32) -> Option<Choice> {
    let mut best = None;
    for column in 0..columns {
        best = better(best, at_fraction(simplex, costs, column));
    }
    best
}

/// The reduced cost of a column with these multipliers of the rows.
fn reduced_cost(problem: &Problem<'_>, multipliers: &[f64], column: usize) -> f64 {
    let mut sum = match problem.cost().get(column) {
        Some(cost) => nearest_i64_to_f64(*cost),
        None => 0.0,
    };
    for (row, multiplier) in problem.rows().iter().zip(multipliers.iter()) {
        if let Some(coef) = row.coef().get(column) {
            sum += *multiplier * nearest_i64_to_f64(*coef);
        }
    }
    sum
}

/// The split of a column that is whole: its number stays with the lower ones, unless it is the greatest.
fn at_whole(
    problem: &Problem<'_>,
    simplex: &FloatSimplex,
    costs: &PseudoCosts,
    column: u32,
) -> Option<Choice> {
    let place = column as usize;
    let lo = *problem.lo().get(place)?;
    let hi = *problem.hi().get(place)?;
    if lo >= hi {
        return None;
    }
    let value = saturating_f64_to_i64((at(simplex.point(), place) + 0.5).floor());
    let stays_low = value < hi;
    let below = value.saturating_sub(1);
    let place_at = if stays_low { value } else { below };
    let width = nearest_i64_to_f64(hi.saturating_sub(lo));
    let gain = costs.down(column) + costs.up(column);
    Some(Choice {
        place: Place {
            column,
            at: place_at,
        },
        score: reduced_cost(problem, simplex.multipliers(), place).abs()
            + PSEUDO_COST_WEIGHT * gain
            + NARROWNESS_WEIGHT / (1.0 + width),
        low: if stays_low { 0.0 } else { 1.0 },
        high: if stays_low { 1.0 } else { 0.0 },
    })
}

/// The best split of these columns, which are whole.
fn best_whole_of(
    problem: &Problem<'_>,
    simplex: &FloatSimplex,
    costs: &PseudoCosts,
    columns: &[u32],
) -> Option<Choice> {
    let mut best = None;
    for column in columns {
        best = better(best, at_whole(problem, simplex, costs, *column));
    }
    best
}

/// The best split: of a column that isn't whole, if there is one, else of one of these, the linking columns.
pub(crate) fn best_split(
    problem: &Problem<'_>,
    simplex: &FloatSimplex,
    costs: &PseudoCosts,
    links: &[u32],
) -> Option<Choice> {
    let columns = u32::try_from(problem.lo().len()).unwrap_or(0);
    let choice = best_fraction(simplex, costs, columns);
    if choice.is_some() {
        return choice;
    }
    best_whole_of(problem, simplex, costs, links)
}
