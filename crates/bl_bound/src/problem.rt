//! A problem, how it is built and how it is read.
ghost use Rattle.std.specs.Prelude.{◌≡◌, ◌↔◌, IsTrue, [], ◌∷◌, ◌++◌, length, OnOk, OnErr};
ghost use Rattle.bl_terms.specs.Points.{IsArea};
ghost use Rattle.bl_terms.specs.Bounds.{IsProblem, Fits};

use crate::sizes::{are_within, rows_fit};
use bl_limits::{MAX_COLUMNS, MAX_NUMBER, MAX_PROBLEM_ROWS};
use std::alloc::{AllocError, Global};
use std::marker::Model;

/// A row: the inequality `coef · z <= rhs`.
#[derive(Debug, Drop)]
pub struct ProblemRow<'a> {
    coef: &'a [i64],
    rhs: i64,
}

impl<'a> Model for ProblemRow<'a> {
    ghost use Rattle.bl_terms.specs.Points.{Linear, linear_code};

    ghost Value = { Linear };

    ghost coded = { linear_code };

    ghost view = { λ r. record { coef = r.coef.now; rhs = r.rhs } };
}

impl<'a> ProblemRow<'a> {
    /// The coefficients, one for each column.
    pub fn coef(&self) -> &'a [i64]
        ensures { result.now ≡ self.now.coef }
    {
        self.coef
    }

    /// The right-hand side.
    pub fn rhs(&self) -> i64
        ensures { result ≡ self.now.rhs }
    {
        self.rhs
    }
}

/// Rows `coef · z <= rhs`, a cost to be minimised, and a box: the range of each column. All numbers are lent.
/// Contracts see it as the problem over whole numbers.
#[derive(Debug, Drop)]
pub struct Problem<'a> {
    rows: Vec<ProblemRow<'a>>,
    cost: &'a [i64],
    lo: &'a [i64],
    hi: &'a [i64],
}

impl<'a> Model for Problem<'a> {
    ghost use Rattle.bl_terms.specs.Bounds.{Problem as BoundedProblem, IsProblem};

    ghost Value = { BoundedProblem };

    ghost view = { λ p. record
        { rows = p.rows.items; cost = p.cost.now; area = record { lo = p.lo.now; hi = p.hi.now } } };

    ghost invariant = { λ p. IsProblem
        (record { rows = p.rows.items; cost = p.cost.now; area = record { lo = p.lo.now; hi = p.hi.now } }) };
}

impl<'a> Problem<'a> {
    /// The problem without rows.
    pub fn start(alloc: Global, cost: &'a [i64], lo: &'a [i64], hi: &'a [i64]) -> Problem<'a>
        requires box_in_order { IsArea (record { lo = lo.now; hi = hi.now }) }
        requires columns { length cost.now ≡ length lo.now }
        ensures { result ≡ record { rows = []; cost = cost.now; area = record { lo = lo.now; hi = hi.now } } }
    {
        Problem {
            rows: Vec::new(alloc),
            cost,
            lo,
            hi,
        }
    }

    /// Adds the row `coef · z <= rhs` at the end. After an error the problem is as before.
    pub fn row(&mut self, coef: &'a [i64], rhs: i64) -> Result<(), AllocError>
        requires { length coef.now ≡ length self.old.area.lo }
        ensures ok { OnOk result
            (self.new ≡ record self.old { rows = self.old.rows ++ record { coef = coef.now; rhs = rhs } ∷ [] }) }
        ensures err { OnErr result (self.new ≡ self.old) }
    {
        self.rows.push(ProblemRow { coef, rhs })?;
        Ok(())
    }

    /// Whether the problem is small enough for exact arithmetic in 128 bits: its columns and rows are at most
    /// `MAX_COLUMNS` and `MAX_PROBLEM_ROWS`, its coefficients and right-hand sides have magnitudes of at most
    /// `MAX_PROBLEM_COEFFICIENT` and `MAX_PROBLEM_RHS`, its costs and bounds of at most `MAX_NUMBER`.
    pub fn fits(&self) -> bool
        ensures { IsTrue result ↔ Fits self.now }
    {
        self.lo.len() <= MAX_COLUMNS
            && self.rows.len() <= MAX_PROBLEM_ROWS
            && rows_fit(&self.rows)
            && are_within(self.cost, MAX_NUMBER)
            && are_within(self.lo, MAX_NUMBER)
            && are_within(self.hi, MAX_NUMBER)
    }

    /// The rows, in the order in which they were added.
    pub fn rows(&self) -> &[ProblemRow<'a>]
        ensures value { result.now ≡ self.now.rows }
        ensures shape { IsProblem self.now }
    {
        self.rows.as_slice()
    }

    /// The cost of each column.
    pub fn cost(&self) -> &'a [i64]
        ensures value { result.now ≡ self.now.cost }
        ensures shape { IsProblem self.now }
    {
        self.cost
    }

    /// The lower side of each column's range.
    pub fn lo(&self) -> &'a [i64]
        ensures value { result.now ≡ self.now.area.lo }
        ensures shape { IsProblem self.now }
    {
        self.lo
    }

    /// The upper side of each column's range.
    pub fn hi(&self) -> &'a [i64]
        ensures value { result.now ≡ self.now.area.hi }
        ensures shape { IsProblem self.now }
    {
        self.hi
    }
}
