//! A pivot, on the numbers of a dictionary row by row.
ghost use Rattle.std.specs.Prelude.{◌≡◌, ◌≢◌, ℕ, ◌+◌, ◌*◌, ◌<◌, ◌≤◌, ◌⊎◌, ◌==◌, pos, length, Some, None, IsSome, OnOk};
ghost use Rattle.std.specs.Prelude.{IfErr, IfOk, IsTrue};
ghost use Rattle.bl_simplex.specs.Rationals.{fraction_at};
ghost use Rattle.bl_tableau.specs.Cells.{placed, AreReduced};
ghost use Rattle.bl_simplex.specs.Pivots.{scaled_entry, eliminated_entry, pivot_place, IsFirstWide};

use crate::place::{eliminated, is_zero, scaled};
use bl_frac::Frac;

/// A row and a column.
#[derive(Clone, Copy, Debug)]
pub(crate) struct Place {
    pub(crate) row: usize,
    pub(crate) column: usize,
}

/// Divides the row of `width` numbers at `start` by its number at `column`. An error is the first column at which
/// that passes 128 bits.
fn divide_row(cells: &mut [Frac], start: usize, width: usize, column: usize) -> Result<(), usize>
    requires within { start + width ≤ length cells.old }
    requires column_in { column < width }
    requires nonzero { (fraction_at cells.old (start + column)).num ≢ pos 0 }
    requires numbers { AreReduced cells.old }
    ensures ok { OnOk result ((j : ℕ) → j < width →
        scaled_entry (fraction_at cells.old (start + j)) (fraction_at cells.old (start + column)) (j == column)
        ≡ Some (fraction_at cells.new (start + j))) }
    ensures others { OnOk result
        ((k : ℕ) → (k < start) ⊎ (start + width ≤ k) → fraction_at cells.new k ≡ fraction_at cells.old k) }
    ensures lowest_terms { OnOk result (AreReduced cells.new) }
    ensures err { IfErr result (λ j. j < width) }
    ensures wide { IfErr result (λ j.
        scaled_entry (fraction_at cells.old (start + j)) (fraction_at cells.old (start + column)) (j == column)
        ≡ None) }
    ensures earlier { IfErr result (λ j. (k : ℕ) → k < j →
        IsSome (scaled_entry (fraction_at cells.old (start + k)) (fraction_at cells.old (start + column))
        (k == column))) }
{
    let pivot = cells[start + column];
    for j in 0..width {
        let x = cells[start + j];
        match scaled(x, pivot, j == column) {
            Ok(scaled) => cells[start + j] = scaled,
            Err(_) => return Err(j),
        }
    }
    Ok(())
}

/// Takes from the row of `width` numbers at `start` its number at `column` times the row at `pivot`. An error is the
/// first column at which that passes 128 bits.
fn reduce_row(
    cells: &mut [Frac],
    start: usize,
    pivot: usize,
    width: usize,
    column: usize,
) -> Result<(), usize>
    requires within { start + width ≤ length cells.old }
    requires pivot_within { pivot + width ≤ length cells.old }
    requires apart { (start + width ≤ pivot) ⊎ (pivot + width ≤ start) }
    requires column_in { column < width }
    requires numbers { AreReduced cells.old }
    ensures ok { OnOk result ((j : ℕ) → j < width →
        eliminated_entry (fraction_at cells.old (start + column)) (fraction_at cells.old (start + j))
        (fraction_at cells.old (pivot + j)) (j == column)
        ≡ Some (fraction_at cells.new (start + j))) }
    ensures others { OnOk result
        ((k : ℕ) → (k < start) ⊎ (start + width ≤ k) → fraction_at cells.new k ≡ fraction_at cells.old k) }
    ensures lowest_terms { OnOk result (AreReduced cells.new) }
    ensures err { IfErr result (λ j. j < width) }
    ensures wide { IfErr result (λ j.
        eliminated_entry (fraction_at cells.old (start + column)) (fraction_at cells.old (start + j))
        (fraction_at cells.old (pivot + j)) (j == column)
        ≡ None) }
    ensures earlier { IfErr result (λ j. (k : ℕ) → k < j →
        IsSome (eliminated_entry (fraction_at cells.old (start + column)) (fraction_at cells.old (start + k))
        (fraction_at cells.old (pivot + k)) (k == column))) }
{
    let factor = cells[start + column];
    if is_zero(factor) {
        return Ok(());
    }
    for j in 0..width {
        let x = cells[start + j];
        let scaled = cells[pivot + j];
        match eliminated(factor, x, scaled, j == column) {
            Ok(rest) => cells[start + j] = rest,
            Err(_) => return Err(j),
        }
    }
    Ok(())
}

/// The pivot at a row and a column of a dictionary of `rows` rows of `width` numbers. An error is the first place
/// that passes 128 bits, the pivot's row being taken first.
pub(crate) fn pivot_rows(
    cells: &mut [Frac],
    rows: usize,
    width: usize,
    at: Place,
) -> Result<(), Place>
    requires size { length cells.old ≡ rows * width }
    requires row_in { at.row < rows }
    requires column_in { at.column < width }
    requires nonzero { (placed cells.old width at.row at.column).num ≢ pos 0 }
    requires numbers { AreReduced cells.old }
    ensures ok { OnOk result ((i j : ℕ) → i < rows → j < width →
        pivot_place (placed cells.old width) at.row at.column i j ≡ Some (placed cells.new width i j)) }
    ensures lowest_terms { OnOk result (AreReduced cells.new) }
    ensures err { IfErr result (λ w. IsFirstWide rows width (placed cells.old width) at.row at.column w.row w.column) }
{
    let pivot = at.row * width;
    if let Err(column) = divide_row(cells, pivot, width, at.column) {
        return Err(Place {
            row: at.row,
            column,
        });
    }
    for i in 0..rows {
        if i != at.row {
            if let Err(column) = reduce_row(cells, i * width, pivot, width, at.column) {
                return Err(Place { row: i, column });
            }
        }
    }
    Ok(())
}
