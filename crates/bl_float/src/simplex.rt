//! The float simplex: what is kept from call to call, and what it answers.
ghost use Rattle.std.specs.Prelude.{◌≡◌, length, OnOk};

use crate::choice::{Rule, leaving_row};
use crate::dictionary::{Dictionary, LEAST_ENTRY, Leaving};
use crate::fine::begin_fine;
use crate::numbers::{at, put, row_of, set_zeros};
use crate::source::{Source, is_dual_feasible};
use bl_bound::Problem;
use std::alloc::{AllocError, Global};
use std::marker::Model;
use std::num::nearest_i64_to_f64;

/// The pivots that one call may take: this many, and [`FLOAT_PIVOTS_PER_LINE`] more for each row and column.
pub const FLOAT_PIVOTS_AT_LEAST: usize = 200;

/// See [`FLOAT_PIVOTS_AT_LEAST`].
pub const FLOAT_PIVOTS_PER_LINE: usize = 5;

/// After how many pivots the dictionary is computed anew from the problem.
const PIVOTS_KEPT: u32 = 100;

/// After how many pivots without progress the choices go by the least label.
const MOST_IDLE: u32 = 40;

/// How often rows are loosened.
const MOST_LOOSENINGS: u32 = 6;

/// By how much the cost has to pass the greatest one that is sought, and the share of that one that is added.
const CUTOFF_MARGIN: f64 = 1e-6;

const CUTOFF_SHARE: f64 = 1e-11;

/// How a call ends. Nothing is promised of it: rounding may have led the search astray.
#[derive(Clone, Copy, Debug, PartialEq)]
pub enum End {
    /// The columns' values are a point of least cost; the multipliers are those of the cost.
    Optimal,
    /// No point of the box meets the rows, by the multipliers.
    Infeasible,
    /// No point of the box that meets the rows is below the cutoff, by the multipliers.
    AboveCutoff,
    /// The limit of pivots is reached.
    Tired,
    /// A number is infinite or none.
    Broken,
}

/// How the pivots end.
#[derive(Clone, Copy, Debug)]
enum Stop {
    Optimal,
    Infeasible(Leaving),
    AboveCutoff,
    Tired,
}

/// A dual simplex method in doubles that goes on from call to call. It keeps its dictionary, so that a problem that
/// differs from the last one in its box and right sides alone takes but few pivots; and its room, so that a call takes
/// no memory where an earlier one was as large. Contracts see it as the numbers of rows and columns of the last
/// problem.
#[derive(Debug, Drop)]
pub struct FloatSimplex {
    engine: Engine,
    point: Vec<f64>,
    multipliers: Vec<f64>,
    fine: Vec<i128>,
}

impl Model for FloatSimplex {
    ghost use Rattle.std.specs.Prelude.{vec_len};
    ghost use Rattle.bl_float.specs.Shapes.{Shape};

    ghost Value = { Shape };

    ghost view = { λ s. record { rows = vec_len s.multipliers; columns = vec_len s.point } };
}

/// What is kept from call to call.
#[derive(Debug, Drop)]
struct Engine {
    source: Source,
    dictionary: Dictionary,
    /// Whether the dictionary is one of the source.
    is_open: bool,
    /// How many pivots in a row made no progress.
    idle: u32,
}

impl Engine {
    /// Makes the dictionary one of the problem: the last one where only the box and the right sides differ, else the
    /// opening one. Rows that aren't equations are tightened by half a unit times the sum of their magnitudes.
    fn load(&mut self, problem: &Problem<'_>, unit: f64) -> Result<(), AllocError> {
        if !self.is_open || !self.source.is_of(problem) {
            self.is_open = false;
            self.source.read(problem)?;
            self.source.open(&mut self.dictionary)?;
            self.is_open = true;
        }
        self.source.read_ranges(problem)?;
        if unit > 0.0 {
            self.source.tighten(problem, unit)?;
        }
        self.source.stand(&mut self.dictionary);
        Ok(())
    }

    /// Minimises up to a limit. Tightened rows that leave no point are loosened, a few times at most.
    fn minimise(
        &mut self,
        problem: &Problem<'_>,
        limit: f64,
        unit: f64,
    ) -> Result<Stop, AllocError> {
        let most = most_pivots(problem.rows().len(), problem.lo().len());
        self.source.tighten_all()?;
        self.load(problem, unit)?;
        let mut stop = self.run(limit, most)?;
        for _ in 0..MOST_LOOSENINGS {
            let Stop::Infeasible(leaving) = stop else {
                return Ok(stop);
            };
            if !(unit > 0.0) || !self.loosen(leaving) {
                return Ok(stop);
            }
            self.load(problem, unit)?;
            stop = self.run(limit, most)?;
        }
        Ok(stop)
    }

    /// Makes the rows loose that together leave no point, and answers whether one of them was not.
    fn loosen(&mut self, leaving: Leaving) -> bool {
        let mut is_looser = false;
        let width = self.dictionary.width();
        if let Some(row) = row_of(&self.dictionary.entries, width, leaving.row) {
            for (nonbasic, entry) in self.dictionary.nonbasic.iter().zip(row.iter()) {
                if entry.abs() > LEAST_ENTRY && self.source.loosen(nonbasic.label) {
                    is_looser = true;
                }
            }
        }
        if let Some(basic) = self.dictionary.basic.get(leaving.row)
            && self.source.loosen(basic.label)
        {
            is_looser = true;
        }
        is_looser
    }

    /// Computes the dictionary anew from the problem: of the same basis, or the opening one where that isn't usable.
    fn refresh(&mut self) -> Result<(), AllocError> {
        self.is_open = false;
        self.source.restore(&mut self.dictionary)?;
        self.source.stand(&mut self.dictionary);
        if !is_dual_feasible(&self.dictionary) {
            self.source.open(&mut self.dictionary)?;
            self.source.stand(&mut self.dictionary);
        }
        self.is_open = true;
        Ok(())
    }

    /// Pivots until there is an end, at most so many times.
    fn run(&mut self, limit: f64, most: usize) -> Result<Stop, AllocError> {
        self.idle = 0;
        for _ in 0..most {
            if self.dictionary.pivots >= PIVOTS_KEPT {
                self.refresh()?;
            }
            if self.dictionary.cost > limit {
                return Ok(Stop::AboveCutoff);
            }
            let rule = self.rule();
            let Some(leaving) = leaving_row(&self.dictionary.basic, rule) else {
                return Ok(Stop::Optimal);
            };
            let Some(column) = self.dictionary.entering_column(leaving, rule) else {
                return Ok(Stop::Infeasible(leaving));
            };
            self.take(leaving, column);
        }
        Ok(Stop::Tired)
    }

    fn rule(&self) -> Rule {
        if self.idle > MOST_IDLE {
            Rule::LeastLabel
        } else {
            Rule::Steepest
        }
    }

    /// Takes a pivot, and counts it where it makes no progress.
    fn take(&mut self, leaving: Leaving, column: usize) {
        let before = self.dictionary.cost;
        self.dictionary.flip_passed();
        self.dictionary.pivot(leaving, column);
        let least = CUTOFF_SHARE * (1.0 + before.abs());
        if self.dictionary.cost - before > least {
            self.idle = 0;
        } else {
            self.idle = self.idle.saturating_add(1);
        }
    }

    /// The end, unless a number of it is infinite or none.
    fn end_of(&mut self, stop: Stop, numbers: &[f64]) -> End {
        let end = match stop {
            Stop::Optimal => End::Optimal,
            Stop::Infeasible(_) => End::Infeasible,
            Stop::AboveCutoff => End::AboveCutoff,
            Stop::Tired => End::Tired,
        };
        let is_sound = self.dictionary.cost.is_finite() && numbers.iter().all(|x| x.is_finite());
        if !is_sound || end == End::Tired {
            self.is_open = false;
        }
        if is_sound { end } else { End::Broken }
    }

    /// Writes the columns' values.
    fn write_point(&self, point: &mut [f64]) {
        for basic in self.dictionary.basic.iter() {
            put(point, basic.label as usize, basic.value);
        }
        for nonbasic in self.dictionary.nonbasic.iter() {
            put(point, nonbasic.label as usize, nonbasic.level);
        }
    }

    /// Writes the rows' multipliers: those of the cost, or of the variable that can't come into its range.
    fn write_multipliers(&self, stop: Stop, multipliers: &mut [f64]) {
        match stop {
            Stop::Infeasible(leaving) => {
                self.write_row(leaving, multipliers);
            }
            _ => self.write_columns(&self.dictionary.reduced, -1.0, multipliers),
        }
    }

    /// Writes the multipliers of a row of the dictionary.
    fn write_row(&self, leaving: Leaving, multipliers: &mut [f64]) {
        let sign = if leaving.rises { 1.0 } else { -1.0 };
        let width = self.dictionary.width();
        if let Some(row) = row_of(&self.dictionary.entries, width, leaving.row) {
            self.write_columns(row, sign, multipliers);
        }
        if let Some(basic) = self.dictionary.basic.get(leaving.row) {
            self.write_multiplier(basic.label, 1.0, multipliers);
        }
    }

    /// Writes a multiple of the numbers at the nonbasic activities.
    fn write_columns(&self, numbers: &[f64], factor: f64, multipliers: &mut [f64]) {
        for (nonbasic, number) in self.dictionary.nonbasic.iter().zip(numbers.iter()) {
            self.write_multiplier(nonbasic.label, factor * *number, multipliers);
        }
    }

    /// Writes the multiplier of an activity, for the row as it stands in the problem.
    fn write_multiplier(&self, label: u32, number: f64, multipliers: &mut [f64]) {
        let columns = self.dictionary.nonbasic.len();
        let label = label as usize;
        if columns <= label {
            let row = label - columns;
            put(
                multipliers,
                row,
                number.max(0.0) * at(&self.source.scales, row),
            );
        }
    }
}

impl FloatSimplex {
    /// A simplex that has seen no problem. Takes no memory.
    pub fn new(alloc: Global) -> FloatSimplex
        ensures { result ≡ record { rows = 0; columns = 0 } }
    {
        FloatSimplex {
            engine: Engine {
                source: Source::new(alloc),
                dictionary: Dictionary::new(alloc),
                is_open: false,
                idle: 0,
            },
            point: Vec::new(alloc),
            multipliers: Vec::new(alloc),
            fine: Vec::new(alloc),
        }
    }

    /// Has the next call begin with the opening dictionary.
    pub fn forget(&mut self)
        ensures { self.new ≡ self.old }
    {
        self.engine.is_open = false;
    }

    /// Minimises the cost of a problem, up to the cutoff less 1, above which it stops. It takes at most
    /// [`FLOAT_PIVOTS_AT_LEAST`] pivots, and [`FLOAT_PIVOTS_PER_LINE`] more for each row and column.
    pub fn solve(&mut self, problem: &Problem<'_>, cutoff: Option<i64>) -> Result<End, AllocError>
        ensures { OnOk result
            (self.new ≡ record { rows = length problem.now.rows; columns = length problem.now.area.lo }) }
    {
        self.solve_inside(problem, cutoff, 0.0)
    }

    /// The same where each row but those of equations is tightened by half a unit times the sum of its coefficients'
    /// magnitudes at columns that aren't fixed: then a point that meets the rows may be rounded to multiples of the
    /// unit, and still does. Rows that leave no point when they are tightened are left as they are.
    pub fn solve_inside(
        &mut self,
        problem: &Problem<'_>,
        cutoff: Option<i64>,
        unit: f64,
    ) -> Result<End, AllocError>
        ensures { OnOk result
            (self.new ≡ record { rows = length problem.now.rows; columns = length problem.now.area.lo }) }
    {
        let rows = problem.rows().len();
        let columns = problem.lo().len();
        set_zeros(&mut self.point, columns)?;
        set_zeros(&mut self.multipliers, rows)?;
        let stop = self.engine.minimise(problem, limit_of(cutoff), unit)?;
        self.engine.write_point(&mut self.point);
        self.engine.write_multipliers(stop, &mut self.multipliers);
        Ok(self.engine.end_of(stop, &self.multipliers))
    }

    /// The values of the columns.
    pub fn point(&self) -> &[f64]
        ensures { length result.now ≡ self.now.columns }
    {
        &self.point
    }

    /// The multipliers of the rows, none of them below 0.
    pub fn multipliers(&self) -> &[f64]
        ensures { length result.now ≡ self.now.rows }
    {
        &self.multipliers
    }

    /// Refines the values of the columns, in parts of [`FINE_UNIT`], by the residuals of the rows and ends of ranges
    /// that the last dictionary meets with equality. It is false where a number is too large for that. The problem is
    /// the last one that was solved.
    pub fn refine(&mut self, problem: &Problem<'_>) -> Result<bool, AllocError>
        ensures { self.new ≡ self.old }
    {
        begin_fine(&mut self.fine, &self.point)?;
        Ok(
            self.engine
                .dictionary
                .refine(problem, &self.engine.source.scales, &mut self.fine),
        )
    }

    /// The refined values of the columns.
    pub fn fine_point(&self) -> &[i128] {
        &self.fine
    }

    /// The cost of the columns' values.
    pub fn cost(&self) -> f64 {
        self.engine.dictionary.cost
    }
}

/// The cost above which no point is sought.
fn limit_of(cutoff: Option<i64>) -> f64 {
    match cutoff {
        Some(cutoff) => {
            let most = nearest_i64_to_f64(cutoff.saturating_sub(1));
            most + CUTOFF_MARGIN + CUTOFF_SHARE * most.abs()
        }
        None => f64::INFINITY,
    }
}

/// The pivots that a call may take.
fn most_pivots(rows: usize, columns: usize) -> usize {
    let lines = rows.saturating_add(columns);
    FLOAT_PIVOTS_AT_LEAST.saturating_add(FLOAT_PIVOTS_PER_LINE.saturating_mul(lines))
}
