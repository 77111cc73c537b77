//! What is kept, candidate by candidate.
ghost use Rattle.std.specs.Prelude.{◌≡◌, ◌≢◌, ◌+◌, ◌<◌, pos, length, Some, None, IfOk, OnOk, MatchResult, IsOk, Err};
ghost use Rattle.std.specs.Prelude.{Result, ◌≤◌, ◌^◌, All};
ghost use Rattle.bl_simplex.specs.Rationals.{fraction_at};
ghost use Rattle.bl_elimination.specs.declared.basis.NoBasis.TheVariants.{TooLarge};
ghost use Rattle.bl_elimination.specs.Elimination.{Kept as KeptRows, nothing_kept, with_row, kept_with, kept_after};
ghost use Rattle.bl_elimination.specs.Elimination.{reduced, candidate, eliminated, IsGiven};
ghost use Rattle.bl_elimination.specs.Keeping.{HasShape, IsTaken, IsOutcome};

use crate::basis::NoBasis;
use crate::row::Row;
use crate::rows::{clear, reduce_by};
use bl_bound::ProblemRow;
use bl_frac::WideFrac;
use bl_limits::MAX_COLUMNS;
use smallvec::SmallVec;
use std::alloc::{AllocError, Global};
use std::marker::Model;

/// What is kept: rows by their numbers among the candidates, with their pivot columns.
#[derive(Debug, Drop)]
pub(crate) struct Kept {
    pub(crate) numbers: Vec<u32>,
    pub(crate) columns: SmallVec<u32, MAX_COLUMNS>,
    pub(crate) rows: Vec<Row>,
}

impl Model for Kept {
    ghost use Rattle.bl_elimination.specs.Elimination.{Kept as KeptRows};

    ghost Value = { KeptRows };

    ghost view = { λ k. record { numbers = k.numbers.items; columns = k.columns.items; rows = k.rows.items } };
}

/// An error of the arithmetic, as one at the candidate with this number.
fn at_candidate(outcome: Result<(), WideFrac>, number: u32) -> Result<(), NoBasis>
    ensures { MatchResult outcome (λ _. IsOk result) (λ _. result ≡ Err (TooLarge number)) }
{
    match outcome {
        Ok(()) => Ok(()),
        Err(_) => Err(NoBasis::TooLarge { position: number }),
    }
}

impl Kept {
    pub(crate) fn nothing(alloc: Global) -> Kept
        ensures { result ≡ nothing_kept }
    {
        Kept {
            numbers: Vec::new(alloc),
            columns: SmallVec::new(alloc),
            rows: Vec::new(alloc),
        }
    }

    /// How many rows are kept.
    pub(crate) fn len(&self) -> usize
        ensures { result ≡ length self.now.rows }
    {
        self.rows.len()
    }

    /// Adds a row to the end.
    fn push(&mut self, number: u32, column: u32, row: Row) -> Result<(), AllocError>
        ensures { OnOk result (self.new ≡ with_row self.old number column row self.old.rows) }
    {
        self.numbers.push(number)?;
        self.columns.push(column)?;
        self.rows.push(row)?;
        Ok(())
    }

    /// Divides a reduced row by its entry at its pivot column, clears the others by it, and keeps it.
    fn keep(&mut self, number: u32, column: u32, row: Row) -> Result<(), NoBasis>
        requires column_in { column < length row }
        requires nonzero { (fraction_at row column).num ≢ pos 0 }
        requires shape { HasShape (length row) self.old }
        ensures kept { IsTaken (kept_with self.old number row (Some column)) number result self.new }
        ensures shape { OnOk result (HasShape (length row) self.new) }
        ensures count { OnOk result (length self.new.rows ≡ length self.old.rows + 1) }
    {
        let mut row = row;
        at_candidate(row.divide(column as usize), number)?;
        at_candidate(clear(&mut self.rows, &row, column as usize), number)?;
        self.push(number, column, row)?;
        Ok(())
    }

    /// The candidate with this number, without its entries at the pivot columns.
    fn reduced_candidate(&self, alloc: Global, number: u32, coef: &[i64]) -> Result<Row, NoBasis>
        requires shape { HasShape (length coef.now + length coef.now) self.now }
        ensures reduced { IsOutcome
            (reduced self.now.columns self.now.rows (candidate (length self.now.rows) coef.now)) number result }
        ensures size { IfOk result (λ row. length row ≡ length coef.now + length coef.now) }
    {
        let mut row = Row::candidate(alloc, coef, self.rows.len())?;
        let outcome = reduce_by(&mut row, self.columns.as_slice(), &self.rows);
        at_candidate(outcome, number)?;
        Ok(row)
    }

    /// Takes the candidate with this number. After an error what is kept is of no use.
    pub(crate) fn take(&mut self, alloc: Global, number: u32, coef: &[i64]) -> Result<(), NoBasis>
        requires few { length coef.now ≤ MAX_COLUMNS }
        requires shape { HasShape (length coef.now + length coef.now) self.old }
        ensures taken { IsTaken (kept_after self.old number coef.now) number result self.new }
        ensures shape { OnOk result (HasShape (length coef.now + length coef.now) self.new) }
        ensures count { OnOk result (length self.new.rows ≤ length self.old.rows + 1) }
    {
        let row = self.reduced_candidate(alloc, number, coef)?;
        match row.pivot_column(coef.len()) {
            Some(column) => self.keep(number, column as u32, row),
            None => Ok(()),
        }
    }
}

/// The rows that are kept of candidates with so many columns.
pub(crate) fn kept_rows(
    alloc: Global,
    rows: &[ProblemRow<'_>],
    columns: usize,
) -> Result<Kept, NoBasis>
    requires few_columns { columns ≤ MAX_COLUMNS }
    requires few_rows { length rows.now < 2 ^ 32 }
    requires sizes { All (λ row. length row.coef ≡ columns) rows.now }
    ensures exact { IsGiven (eliminated columns nothing_kept 0 rows.now) result }
    ensures shape { IfOk result (HasShape (columns + columns)) }
{
    let mut kept = Kept::nothing(alloc);
    for i in 0..rows.len() {
        if kept.len() == columns {
            return Ok(kept);
        }
        let row = &rows[i];
        kept.take(alloc, i as u32, row.coef())?;
    }
    if kept.len() != columns {
        return Err(NoBasis::NotUnique {
            pivots: kept.len() as u32,
        });
    }
    Ok(kept)
}
