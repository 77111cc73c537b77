//! The dictionary of the dual simplex method in doubles.
//!
//! Its variables are the columns of the problem and the activities of its rows, `a·z`, scaled by a power of 2. Each has
//! a range; that of an activity has no lower end. A basic variable is the sum of its row's entries times the nonbasic
//! variables, each of which stands at an end of its range. So a changed box or right side changes ranges alone.
ghost use Rattle.std.specs.Prelude.{◌≤◌};

use crate::numbers::{add_multiple, at, copy, put, row_of};
use std::alloc::Global;

/// The least magnitude of a number that counts as an entry.
pub(crate) const LEAST_ENTRY: f64 = 1e-9;

/// A variable of a row.
#[derive(Clone, Copy, Debug)]
pub(crate) struct Basic {
    /// The number of a column, or the count of columns more than that of a row.
    pub(crate) label: u32,
    pub(crate) low: f64,
    pub(crate) high: f64,
    pub(crate) value: f64,
    /// The row's weight in the choice of the leaving row: its squared length in the reference frame of Devex pricing.
    pub(crate) weight: f64,
}

/// A variable of a column.
#[derive(Clone, Copy, Debug)]
pub(crate) struct Nonbasic {
    pub(crate) label: u32,
    pub(crate) low: f64,
    pub(crate) high: f64,
    /// The end of the range at which the variable stands.
    pub(crate) level: f64,
    /// 1 at the lower end, -1 at the upper one, 0 where the range is one number.
    pub(crate) side: f64,
}

/// A place of the dictionary.
#[derive(Clone, Copy, Debug)]
pub(crate) struct Place {
    pub(crate) row: usize,
    pub(crate) column: usize,
}

/// Where a variable stops that leaves the basis.
#[derive(Clone, Copy, Debug)]
pub(crate) struct Leaving {
    pub(crate) row: usize,
    /// The end of its range that it goes to.
    pub(crate) target: f64,
    /// Whether it rises to its lower end, or falls to its upper one.
    pub(crate) rises: bool,
}

#[derive(Debug, Drop)]
pub(crate) struct Dictionary {
    /// One row for each basic variable and one number for each nonbasic one, row by row.
    pub(crate) entries: Vec<f64>,
    /// What each nonbasic variable adds to the cost, per unit.
    pub(crate) reduced: Vec<f64>,
    pub(crate) basic: Vec<Basic>,
    pub(crate) nonbasic: Vec<Nonbasic>,
    pub(crate) cost: f64,
    /// The pivots since the entries were last computed from the problem.
    pub(crate) pivots: u32,
    /// The row of the pivot, solved for the entering variable.
    pub(crate) solved: Vec<f64>,
    /// For each column that may enter how much the leaving variable gains per unit; its negation where the ratio test
    /// passes the column.
    pub(crate) gains: Vec<f64>,
}

impl Dictionary {
    /// The dictionary of no problem.
    pub(crate) fn new(alloc: Global) -> Dictionary {
        Dictionary {
            entries: Vec::new(alloc),
            reduced: Vec::new(alloc),
            basic: Vec::new(alloc),
            nonbasic: Vec::new(alloc),
            cost: 0.0,
            pivots: 0,
            solved: Vec::new(alloc),
            gains: Vec::new(alloc),
        }
    }

    /// The count of numbers in a row of the entries, at least 1.
    pub(crate) fn width(&self) -> usize
        ensures { 1 ≤ result }
    {
        self.nonbasic.len().max(1)
    }

    /// The entry at a place, or 0 outside.
    pub(crate) fn entry(&self, place: Place) -> f64 {
        match row_of(&self.entries, self.width(), place.row) {
            Some(row) => at(row, place.column),
            None => 0.0,
        }
    }

    /// Moves a nonbasic variable to a level.
    pub(crate) fn move_to(&mut self, column: usize, level: f64) {
        let width = self.width();
        let Some(variable) = self.nonbasic.get_mut(column) else {
            return;
        };
        let step = level - variable.level;
        variable.level = level;
        if step == 0.0 {
            return;
        }
        for (row, basic) in self.entries.chunks_exact(width).zip(self.basic.iter_mut()) {
            basic.value += at(row, column) * step;
        }
        self.cost += at(&self.reduced, column) * step;
    }

    /// Takes the column into the basis so that the leaving variable comes to its target.
    pub(crate) fn pivot(&mut self, leaving: Leaving, column: usize) {
        let place = Place {
            row: leaving.row,
            column,
        };
        let entry = self.entry(place);
        let (Some(basic), Some(nonbasic)) = (self.basic.get(leaving.row), self.nonbasic.get(column))
        else {
            return;
        };
        let step = (leaving.target - basic.value) / entry;
        let level = nonbasic.level + step;
        self.move_to(column, level);
        if let Some(basic) = self.basic.get_mut(leaving.row) {
            basic.value = leaving.target;
        }
        self.exchange(place);
    }

    /// Takes the variable of the place's column into the basis, and that of its row out of it. The entry there isn't 0.
    pub(crate) fn exchange(&mut self, place: Place) {
        let width = self.width();
        let entry = self.entry(place);
        self.solve_row(place, entry);
        let weight = match self.basic.get(place.row) {
            Some(leaving) => leaving.weight,
            None => 1.0,
        };
        let solved = self.solved.as_slice();
        for (i, (row, basic)) in self
            .entries
            .chunks_exact_mut(width)
            .zip(self.basic.iter_mut())
            .enumerate()
        {
            if i == place.row {
                copy(row, solved);
            } else {
                let share = substitute(row, place.column, solved) / entry;
                basic.weight = basic.weight.max(share * share * weight);
            }
        }
        let _ = substitute(&mut self.reduced, place.column, solved);
        self.swap_variables(place, entry, weight);
        self.pivots = self.pivots.saturating_add(1);
    }

    /// Writes the place's row, solved for the variable of its column, into the buffer.
    fn solve_row(&mut self, place: Place, entry: f64) {
        let width = self.width();
        let factor = -1.0 / entry;
        if let Some(row) = row_of(&self.entries, width, place.row) {
            for (x, y) in self.solved.iter_mut().zip(row.iter()) {
                *x = *y * factor;
            }
        }
        put(&mut self.solved, place.column, -factor);
    }

    /// Swaps the variables of a place, each with its range and where it stands.
    fn swap_variables(&mut self, place: Place, entry: f64, weight: f64) {
        let (Some(basic), Some(nonbasic)) = (
            self.basic.get_mut(place.row),
            self.nonbasic.get_mut(place.column),
        ) else {
            return;
        };
        let leaving = *basic;
        let entering = *nonbasic;
        *basic = Basic {
            label: entering.label,
            low: entering.low,
            high: entering.high,
            value: entering.level,
            weight: (weight / (entry * entry)).max(1.0),
        };
        *nonbasic = Nonbasic {
            label: leaving.label,
            low: leaving.low,
            high: leaving.high,
            level: leaving.value,
            side: side_at(leaving.low, leaving.high, leaving.value),
        };
    }
}

/// The side of a range on which a number lies.
pub(crate) fn side_at(low: f64, high: f64, number: f64) -> f64 {
    if low == high {
        0.0
    } else if high - number < number - low {
        -1.0
    } else {
        1.0
    }
}

/// Puts the solved row in place of a variable: the entry at the column goes, and that multiple of the solved row comes.
/// Answers the entry.
fn substitute(row: &mut [f64], column: usize, solved: &[f64]) -> f64 {
    let factor = at(row, column);
    if factor != 0.0 {
        put(row, column, 0.0);
        add_multiple(row, factor, solved);
    }
    factor
}
