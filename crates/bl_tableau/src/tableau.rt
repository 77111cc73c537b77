//! The tableau: a dictionary in memory, with the pivots that led to it.
ghost use Rattle.std.specs.Prelude.{◌≡◌, ◌≢◌, ◌↔◌, ◌+◌, ℕ, IsTrue, ◌<◌, ◌≤◌, pos, false, [], ◌∷◌, ◌++◌, length, OnOk};
ghost use Rattle.std.specs.Prelude.{IfOk, IfErr, is_err, slice_index, slice_set, true};
ghost use Rattle.bl_limits.specs.declared.TheConstants.{MAX_COLUMNS, MAX_PROBLEM_ROWS};
ghost use Rattle.bl_terms.specs.Bounds.{Fits};
ghost use Rattle.bl_simplex.specs.Rationals.{fraction_at};
ghost use Rattle.bl_simplex.specs.Fractions.{IsReduced};
ghost use Rattle.bl_simplex.specs.Dictionaries.{columns, cost_row, opening};
ghost use Rattle.bl_simplex.specs.Pivots.{AllNarrow, EndsWide, FailsFirstAt, IsNarrowPivot};
ghost use Rattle.bl_simplex.specs.LegalPivots.{IsLegal};
ghost use Rattle.bl_tableau.specs.Runs.{current};

use crate::legal::is_entering;
use crate::opening::{numbers, opening_cells};
use crate::rows::{Place, pivot_rows};
use bl_bound::Problem;
use bl_frac::{Frac, is_negative};
use std::alloc::{AllocError, Global};
use std::marker::Model;

/// The pivot with this number, from 0, passes 128 bits, first at this row and column.
#[derive(Clone, Copy, Debug, PartialEq, Eq)]
pub struct Wide {
    pub pivot: u32,
    pub row: u32,
    pub column: u32,
}

/// A dictionary, with the problem that it is of and the pivots that led to it from the problem's opening
/// dictionary. Contracts see it as the run of pivots: until a pivot passes 128 bits it shows their replay. Then it
/// is spent, and tells its pivots alone, the last of which is the one that failed.
#[derive(Debug, Drop)]
pub struct Tableau<'p, 'a> {
    problem: &'p Problem<'a>,
    cells: Vec<Frac>,
    row_labels: Vec<u32>,
    column_labels: Vec<u32>,
    pivots: Vec<(u32, u32)>,
    most: u32,
    spent: bool,
}

impl<'p, 'a> Model for Tableau<'p, 'a> {
    ghost use Rattle.std.specs.Prelude.{vec_capacity};
    ghost use Rattle.bl_tableau.specs.Runs.{Run, KeepsReplay};

    ghost Value = { Run };

    ghost view = { λ t. record { problem = t.problem.now; most = t.most; pivots = t.pivots.items; spent = t.spent } };

    ghost invariant = { λ t. KeepsReplay
        (record { problem = t.problem.now; most = t.most; pivots = t.pivots.items; spent = t.spent })
        t.cells.items t.row_labels.items t.column_labels.items (vec_capacity t.pivots) };
}

impl<'p, 'a> Tableau<'p, 'a> {
    /// The opening dictionary of a problem, with room for `most` pivots. No later call takes memory.
    pub fn start(
        alloc: Global,
        problem: &'p Problem<'a>,
        most: u32,
    ) -> Result<Tableau<'p, 'a>, AllocError>
        requires { Fits problem.now }
        ensures { IfOk result (λ t. t ≡ record { problem = problem.now; most = most; pivots = []; spent = false }) }
    {
        let columns = problem.cost().len() as u32;
        let rows = problem.rows().len() as u32 + columns + 1;
        let cells = opening_cells(alloc, problem)?;
        let row_labels = numbers(alloc, columns, rows)?;
        let column_labels = numbers(alloc, 0, columns)?;
        let pivots = Vec::with_capacity(alloc, most as usize)?;
        Ok(Tableau {
            problem,
            cells,
            row_labels,
            column_labels,
            pivots,
            most,
            spent: false,
        })
    }

    /// How many columns the dictionary has, the column of right sides aside.
    pub fn columns(&self) -> u32
        ensures value { result ≡ columns self.now.problem }
        ensures few { result ≤ MAX_COLUMNS }
    {
        self.column_labels.len() as u32
    }

    /// The number of the cost row, which comes after all others.
    pub fn cost_row(&self) -> u32
        ensures value { result ≡ cost_row self.now.problem }
        ensures few { result ≤ MAX_PROBLEM_ROWS + MAX_COLUMNS }
    {
        (self.row_labels.len() - 1) as u32
    }

    /// The right side of a row; that of the cost row comes after all others.
    pub fn right(&self, row: u32) -> Frac
        requires not_spent { self.now.spent ≡ false }
        requires row_in { row ≤ cost_row self.now.problem }
        ensures value { result ≡ (current self.now).place row (columns self.now.problem) }
        ensures lowest_terms { IsReduced result }
    {
        let width = self.column_labels.len() + 1;
        self.cells[row as usize * width + self.column_labels.len()]
    }

    /// The entry of a row at a column.
    pub fn entry(&self, row: u32, column: u32) -> Frac
        requires not_spent { self.now.spent ≡ false }
        requires row_in { row ≤ cost_row self.now.problem }
        requires column_in { column < columns self.now.problem }
        ensures value { result ≡ (current self.now).place row column }
        ensures lowest_terms { IsReduced result }
    {
        let width = self.column_labels.len() + 1;
        self.cells[row as usize * width + column as usize]
    }

    // The entries of a row.
    fn entries(&self, row: u32) -> &[Frac]
        requires not_spent { self.now.spent ≡ false }
        requires row_in { row ≤ cost_row self.now.problem }
        ensures size { length result.now ≡ columns self.now.problem }
        ensures places { (j : ℕ) → j < columns self.now.problem
            → fraction_at result.now j ≡ (current self.now).place row j }
    {
        let columns = self.column_labels.len();
        let start = row as usize * (columns + 1);
        &self.cells[start..start + columns]
    }

    /// Whether the pivot at a row and a column is a legal step of the dual simplex method.
    pub fn is_legal(&self, row: u32, column: u32) -> bool
        requires not_spent { self.now.spent ≡ false }
        requires row_in { row ≤ cost_row self.now.problem }
        requires column_in { column < columns self.now.problem }
        ensures { IsTrue result ↔ IsLegal self.now.problem (current self.now) row column }
    {
        let cost_row = (self.row_labels.len() - 1) as u32;
        if row == cost_row
            || !is_negative(self.right(row))
            || !is_negative(self.entry(row, column))
        {
            return false;
        }
        is_entering(
            self.entries(cost_row),
            self.entries(row),
            &self.column_labels,
            column as usize,
        )
    }

    /// The number of the variable of a row.
    pub fn row_label(&self, row: u32) -> u32
        requires not_spent { self.now.spent ≡ false }
        requires row_in { row ≤ cost_row self.now.problem }
        ensures { result ≡ (current self.now).row_label row }
    {
        self.row_labels[row as usize]
    }

    /// The number of the variable of a column.
    pub fn column_label(&self, column: u32) -> u32
        requires not_spent { self.now.spent ≡ false }
        requires column_in { column < columns self.now.problem }
        ensures { result ≡ (current self.now).column_label column }
    {
        self.column_labels[column as usize]
    }

    /// The pivots so far, each a row and a column. Of a spent tableau the last one is the one that failed.
    pub fn pivots(&self) -> &[(u32, u32)]
        ensures value { result.now ≡ self.now.pivots }
        ensures narrow { self.now.spent ≡ false
            → AllNarrow self.now.problem (opening self.now.problem) self.now.pivots }
        ensures failed { self.now.spent ≡ true → (row : ℕ) × (column : ℕ)
            × EndsWide self.now.problem self.now.pivots row column }
    {
        self.pivots.as_slice()
    }

    /// Pivots at a row and a column. After an error the tableau is spent.
    pub fn pivot(&mut self, row: u32, column: u32) -> Result<(), Wide>
        requires not_spent { self.old.spent ≡ false }
        requires room { length self.old.pivots < self.old.most }
        requires row_in { row ≤ cost_row self.old.problem }
        requires column_in { column < columns self.old.problem }
        requires nonzero { ((current self.old).place row column).num ≢ pos 0 }
        ensures recorded { self.new
            ≡ record self.old { pivots = self.old.pivots ++ (row, column) ∷ []; spent = is_err result } }
        ensures ok { OnOk result (IsNarrowPivot self.old.problem (current self.old) row column) }
        ensures number { IfErr result (λ w. w.pivot ≡ length self.old.pivots) }
        ensures first { IfErr result (λ w. FailsFirstAt self.old.problem (current self.old) row column w.row w.column) }
    {
        let number = self.pivots.len() as u32;
        let at = Place {
            row: row as usize,
            column: column as usize,
        };
        let outcome = pivot_rows(
            &mut self.cells,
            self.row_labels.len(),
            self.column_labels.len() + 1,
            at,
        );
        self.pivots.push_reserved((row, column));
        match outcome {
            Ok(()) => {
                swap_labels(&mut self.row_labels, &mut self.column_labels, at);
                Ok(())
            }
            Err(place) => {
                self.spent = true;
                Err(Wide {
                    pivot: number,
                    row: place.row as u32,
                    column: place.column as u32,
                })
            }
        }
    }
}

fn swap_labels(row_labels: &mut [u32], column_labels: &mut [u32], at: Place)
    requires row_in { at.row < length row_labels.old }
    requires column_in { at.column < length column_labels.old }
    ensures rows { row_labels.new ≡ slice_set row_labels.old at.row (slice_index column_labels.old at.column) }
    ensures columns { column_labels.new ≡ slice_set column_labels.old at.column (slice_index row_labels.old at.row) }
{
    let label = row_labels[at.row];
    row_labels[at.row] = column_labels[at.column];
    column_labels[at.column] = label;
}
