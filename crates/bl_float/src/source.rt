//! The problem that a dictionary is of.
use crate::choice::LEAST_COST;
use crate::dictionary::{Basic, Dictionary, LEAST_ENTRY, Nonbasic, Place};
use crate::numbers::{at, set_zeros};
use bl_bound::Problem;
use std::alloc::{AllocError, Global};
use std::num::nearest_i64_to_f64;

/// How often a row's scale is halved at most.
const MAX_HALVINGS: u32 = 64;

/// By how much an activity may cost in a dictionary that is restored.
const DUAL_TOLERANCE: f64 = 1e-6;

/// The range of a variable.
#[derive(Clone, Copy, Debug)]
pub(crate) struct Range {
    pub(crate) low: f64,
    pub(crate) high: f64,
}

/// The range of a variable that isn't there.
const NO_RANGE: Range = Range {
    low: 0.0,
    high: 0.0,
};

/// Whether each nonbasic activity costs nothing or less, so that its upper end is the best one.
pub(crate) fn is_dual_feasible(dictionary: &Dictionary) -> bool {
    for (variable, reduced) in dictionary.nonbasic.iter().zip(dictionary.reduced.iter()) {
        if variable.low == f64::NEG_INFINITY && *reduced > DUAL_TOLERANCE {
            return false;
        }
    }
    true
}

/// The rows and costs of a problem as it was last read, and the ranges of its variables.
#[derive(Debug, Drop)]
pub(crate) struct Source {
    coefs: Vec<i64>,
    costs: Vec<i64>,
    /// For each row the power of 2 that its activity is multiplied by.
    pub(crate) scales: Vec<f64>,
    /// For each row another one with the opposite coefficients, or the count of rows; once it is asked for.
    opposites: Vec<usize>,
    /// For each row whether it is left as it is where rows are tightened.
    loose: Vec<bool>,
    /// By label: the columns' ranges, then those of the activities.
    pub(crate) ranges: Vec<Range>,
    /// By label: whether the variable is to be basic in a dictionary that is restored.
    kept: Vec<bool>,
}

/// A power of 2 that brings the coefficients' magnitudes to at most 1.
fn scale_of(coefs: &[i64]) -> f64 {
    let mut greatest: u64 = 1;
    for coef in coefs {
        greatest = greatest.max(coef.unsigned_abs());
    }
    let greatest = nearest_i64_to_f64(i64::try_from(greatest).unwrap_or(i64::MAX));
    let mut scale = 1.0;
    for _ in 0..MAX_HALVINGS {
        if greatest * scale <= 1.0 {
            return scale;
        }
        scale *= 0.5;
    }
    scale
}

/// The sum of a row's magnitudes at the columns that aren't fixed.
fn length_of(coefs: &[i64], lo: &[i64], hi: &[i64]) -> f64 {
    let mut sum = 0.0;
    for ((x, lo), hi) in coefs.iter().zip(lo.iter()).zip(hi.iter()) {
        if *lo < *hi {
            sum += nearest_i64_to_f64(*x).abs();
        }
    }
    sum
}

/// Whether each number is the negation of the one at its place.
fn are_opposite(numbers: &[i64], others: &[i64]) -> bool {
    for (x, y) in numbers.iter().zip(others.iter()) {
        if x.checked_add(*y) != Some(0) {
            return false;
        }
    }
    true
}

/// The first row with the opposite coefficients, or the count of rows.
fn opposite_of(problem: &Problem<'_>, coefs: &[i64]) -> usize {
    for (i, row) in problem.rows().iter().enumerate() {
        if are_opposite(row.coef(), coefs) {
            return i;
        }
    }
    problem.rows().len()
}

/// The range of a label.
fn range_of(ranges: &[Range], label: u32) -> Range {
    match ranges.get(label as usize) {
        Some(range) => *range,
        None => NO_RANGE,
    }
}

/// Where a nonbasic variable stands in its range: at the end where it costs least, and where it costs nothing at the
/// side that it is on.
fn standing(variable: Nonbasic, range: Range, reduced: f64) -> Nonbasic {
    let is_high = range.low == f64::NEG_INFINITY
        || reduced < -LEAST_COST
        || reduced <= LEAST_COST && variable.side < 0.0;
    let level = if is_high { range.high } else { range.low };
    let side = if range.low == range.high {
        0.0
    } else if is_high {
        -1.0
    } else {
        1.0
    };
    Nonbasic {
        label: variable.label,
        low: range.low,
        high: range.high,
        level,
        side,
    }
}

impl Source {
    /// The source without rows and columns.
    pub(crate) fn new(alloc: Global) -> Source {
        Source {
            coefs: Vec::new(alloc),
            costs: Vec::new(alloc),
            scales: Vec::new(alloc),
            opposites: Vec::new(alloc),
            loose: Vec::new(alloc),
            ranges: Vec::new(alloc),
            kept: Vec::new(alloc),
        }
    }

    /// Whether the problem has the same coefficients and costs.
    pub(crate) fn is_of(&self, problem: &Problem<'_>) -> bool {
        if self.scales.len() != problem.rows().len() || self.costs.as_slice() != problem.cost() {
            return false;
        }
        let width = self.costs.len().max(1);
        for (row, coefs) in problem.rows().iter().zip(self.coefs.chunks_exact(width)) {
            if row.coef() != coefs {
                return false;
            }
        }
        true
    }

    /// Reads the coefficients and the costs.
    pub(crate) fn read(&mut self, problem: &Problem<'_>) -> Result<(), AllocError> {
        self.costs.clear();
        self.costs.extend_from_slice(problem.cost())?;
        self.coefs.clear();
        self.scales.clear();
        self.opposites.clear();
        for row in problem.rows() {
            self.coefs.extend_from_slice(row.coef())?;
            self.scales.push(scale_of(row.coef()))?;
        }
        Ok(())
    }

    /// Reads the box and the right sides.
    pub(crate) fn read_ranges(&mut self, problem: &Problem<'_>) -> Result<(), AllocError> {
        self.ranges.clear();
        for (lo, hi) in problem.lo().iter().zip(problem.hi().iter()) {
            self.ranges.push(Range {
                low: nearest_i64_to_f64(*lo),
                high: nearest_i64_to_f64(*hi),
            })?;
        }
        for (row, scale) in problem.rows().iter().zip(self.scales.iter()) {
            self.ranges.push(Range {
                low: f64::NEG_INFINITY,
                high: nearest_i64_to_f64(row.rhs()) * *scale,
            })?;
        }
        Ok(())
    }

    /// Lowers the upper end of each activity, but for those of equations, by half a unit times the sum of the row's
    /// magnitudes at the columns that aren't fixed. Loose rows are left as they are.
    pub(crate) fn tighten(&mut self, problem: &Problem<'_>, unit: f64) -> Result<(), AllocError> {
        if self.opposites.len() != self.scales.len() {
            self.find_opposites(problem)?;
        }
        let columns = self.costs.len();
        let rows = problem.rows();
        for (i, row) in rows.iter().enumerate() {
            let opposite = self.opposites.get(i).copied().unwrap_or(rows.len());
            let is_equation = match rows.get(opposite) {
                Some(other) => row.rhs().checked_add(other.rhs()) == Some(0),
                None => false,
            };
            if !is_equation && !is_set(&self.loose, i) {
                let length = length_of(row.coef(), problem.lo(), problem.hi());
                let margin = 0.5 * unit * length * at(&self.scales, i);
                if let Some(range) = self.ranges.get_mut(columns.saturating_add(i)) {
                    range.high -= margin;
                }
            }
        }
        Ok(())
    }

    /// Finds each row's opposite.
    fn find_opposites(&mut self, problem: &Problem<'_>) -> Result<(), AllocError> {
        self.opposites.clear();
        for row in problem.rows() {
            self.opposites.push(opposite_of(problem, row.coef()))?;
        }
        Ok(())
    }

    /// Makes the dictionary the opening one, whose basic variables are the activities. All values are 0 in it.
    pub(crate) fn open(&self, dictionary: &mut Dictionary) -> Result<(), AllocError> {
        let columns = self.costs.len();
        dictionary.nonbasic.clear();
        for label in 0..columns {
            dictionary.nonbasic.push(Nonbasic {
                label: u32::try_from(label).unwrap_or(u32::MAX),
                low: 0.0,
                high: 0.0,
                level: 0.0,
                side: 0.0,
            })?;
        }
        self.open_rows(dictionary)?;
        self.open_costs(dictionary)
    }

    fn open_rows(&self, dictionary: &mut Dictionary) -> Result<(), AllocError> {
        let columns = self.costs.len();
        dictionary.basic.clear();
        for row in 0..self.scales.len() {
            dictionary.basic.push(Basic {
                label: u32::try_from(row.saturating_add(columns)).unwrap_or(u32::MAX),
                low: f64::NEG_INFINITY,
                high: 0.0,
                value: 0.0,
                weight: 1.0,
            })?;
        }
        dictionary.entries.clear();
        for (coefs, scale) in self
            .coefs
            .chunks_exact(columns.max(1))
            .zip(self.scales.iter())
        {
            push_scaled(&mut dictionary.entries, coefs, *scale)?;
        }
        Ok(())
    }

    fn open_costs(&self, dictionary: &mut Dictionary) -> Result<(), AllocError> {
        dictionary.reduced.clear();
        push_scaled(&mut dictionary.reduced, &self.costs, 1.0)?;
        dictionary.cost = 0.0;
        dictionary.pivots = 0;
        set_zeros(&mut dictionary.solved, self.costs.len())?;
        set_zeros(&mut dictionary.gains, self.costs.len())
    }

    /// Computes the dictionary of the same basis from the problem, as far as it has one. All values are 0 in it.
    pub(crate) fn restore(&mut self, dictionary: &mut Dictionary) -> Result<(), AllocError> {
        self.keep_basis(dictionary)?;
        self.open(dictionary)?;
        for column in 0..self.costs.len() {
            if is_set(&self.kept, column) {
                self.enter(dictionary, column);
            }
        }
        dictionary.pivots = 0;
        for basic in dictionary.basic.iter_mut() {
            basic.weight = 1.0;
        }
        Ok(())
    }

    /// Writes down which variables are basic.
    fn keep_basis(&mut self, dictionary: &Dictionary) -> Result<(), AllocError> {
        let count = self.costs.len().saturating_add(self.scales.len());
        clear_flags(&mut self.kept, count)?;
        for basic in dictionary.basic.iter() {
            let _ = set(&mut self.kept, basic.label as usize);
        }
        Ok(())
    }

    /// Has no row loose.
    pub(crate) fn tighten_all(&mut self) -> Result<(), AllocError> {
        clear_flags(&mut self.loose, self.scales.len())
    }

    /// Makes a row loose, that of an activity, and answers whether it was not.
    pub(crate) fn loosen(&mut self, label: u32) -> bool {
        match (label as usize).checked_sub(self.costs.len()) {
            Some(row) => set(&mut self.loose, row),
            None => false,
        }
    }

    /// Takes a column of the problem into the basis, for an activity that isn't kept.
    fn enter(&self, dictionary: &mut Dictionary, column: usize) {
        let mut best = None;
        let mut greatest = LEAST_ENTRY;
        let width = dictionary.width();
        for (row, (entries, basic)) in dictionary
            .entries
            .chunks_exact(width)
            .zip(dictionary.basic.iter())
            .enumerate()
        {
            let entry = at(entries, column).abs();
            if entry > greatest && !is_set(&self.kept, basic.label as usize) {
                greatest = entry;
                best = Some(row);
            }
        }
        if let Some(row) = best {
            dictionary.exchange(Place { row, column });
        }
    }

    /// Gives each variable its range, and has each nonbasic one stand at an end of it.
    pub(crate) fn stand(&self, dictionary: &mut Dictionary) {
        for column in 0..dictionary.nonbasic.len() {
            let Some(variable) = dictionary.nonbasic.get_mut(column) else {
                return;
            };
            let range = range_of(&self.ranges, variable.label);
            let reduced = at(&dictionary.reduced, column);
            let next = standing(*variable, range, reduced);
            let before = variable.level;
            *variable = next;
            variable.level = before;
            dictionary.move_to(column, next.level);
        }
        for basic in dictionary.basic.iter_mut() {
            let range = range_of(&self.ranges, basic.label);
            basic.low = range.low;
            basic.high = range.high;
        }
    }
}

/// The flag at a place, or false past the end.
fn is_set(flags: &[bool], place: usize) -> bool {
    match flags.get(place) {
        Some(flag) => *flag,
        None => false,
    }
}

/// Sets the flag at a place, and answers whether it was not set.
fn set(flags: &mut [bool], place: usize) -> bool {
    match flags.get_mut(place) {
        Some(flag) => {
            let was_set = *flag;
            *flag = true;
            !was_set
        }
        None => false,
    }
}

/// Makes a list of so many flags that aren't set.
fn clear_flags(flags: &mut Vec<bool>, count: usize) -> Result<(), AllocError> {
    flags.clear();
    for _ in 0..count {
        flags.push(false)?;
    }
    Ok(())
}

/// Adds the numbers times a factor at the end.
fn push_scaled(list: &mut Vec<f64>, numbers: &[i64], factor: f64) -> Result<(), AllocError> {
    for number in numbers {
        list.push(nearest_i64_to_f64(*number) * factor)?;
    }
    Ok(())
}
