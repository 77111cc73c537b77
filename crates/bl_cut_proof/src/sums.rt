//! Sums of rows and combinations of them. They stay below `2^127`.
ghost use Rattle.std.specs.Prelude.{◌≡◌, ◌↔◌, ℕ, ◌*◌, ◌^◌, ◌<◌, pos, length, IsTrue, IfOk, All};
ghost use Rattle.std.specs.Prelude.{MatchOption, if◌then◌else◌, nat_eq};
ghost use Rattle.bl_limits.specs.declared.TheConstants.{MAX_PROBLEM_COEFFICIENT, MAX_PROBLEM_RHS};
ghost use Rattle.bl_whole.specs.Sums.{component, sum_below};
ghost use Rattle.bl_whole.specs.Within.{IsWithin, AreWithin};
ghost use Rattle.bl_terms.specs.Bounds.{linear_at};
ghost use Rattle.bl_cut_terms.specs.NoGoods.{lowered_sum as lowered_sum_of, combined as combined_of, IsUnit};
ghost use Rattle.bl_cut_terms.specs.NoGoods.{Inverts};
ghost use Rattle.bl_cut_proof.specs.Rows.{AreRows};

use crate::lists::push;
use bl_cut::CutRow;
use bl_limits::{MAX_PROBLEM_COEFFICIENT, MAX_PROBLEM_RHS};
use bl_raw::Listed;
use bl_whole::int128::{minus, plus, plus_widening_product};
use std::alloc::{AllocError, Global};

/// The sum of the rows in a column.
fn column_sum(rows: &[CutRow], column: usize, columns: usize) -> i128
    requires rows { AreRows columns rows.now }
    requires column { column < columns }
    ensures { result ≡ sum_below (length rows.now) (λ i. component (linear_at rows.now i).coef column) }
{
    let mut sum = 0;
    for i in 0..rows.len() {
        let row = &rows[i];
        sum = plus(sum, i128::from(row.coef[column]));
    }
    sum
}

/// The sum of the right-hand sides.
fn right_sum(rows: &[CutRow], columns: usize) -> i128
    requires rows { AreRows columns rows.now }
    ensures value { result ≡ sum_below (length rows.now) (λ i. (linear_at rows.now i).rhs) }
    ensures size { IsWithin (length rows.now * MAX_PROBLEM_RHS) result }
{
    let mut sum = 0;
    for i in 0..rows.len() {
        let row = &rows[i];
        sum = plus(sum, i128::from(row.right));
    }
    sum
}

/// The number, where its magnitude is at most `most`.
fn small(number: i128, most: u64) -> Option<i64>
    requires { most < 2 ^ 63 }
    ensures { MatchOption result (¬ IsWithin most number) (λ n. (n ≡ number) × IsWithin most number) }
{
    if number.unsigned_abs() <= u128::from(most) {
        Some(number as i64)
    } else {
        None
    }
}

/// The sum of the rows in a column, none where it is too large.
fn small_column_sum(rows: &[CutRow], column: usize, columns: usize) -> Option<i64>
    requires rows { AreRows columns rows.now }
    requires column { column < columns }
    ensures { MatchOption result
        (¬ IsWithin MAX_PROBLEM_COEFFICIENT
        (sum_below (length rows.now) (λ i. component (linear_at rows.now i).coef column)))
        (λ sum. (sum ≡ sum_below (length rows.now) (λ i. component (linear_at rows.now i).coef column))
        × IsWithin MAX_PROBLEM_COEFFICIENT
        (sum_below (length rows.now) (λ i. component (linear_at rows.now i).coef column))) }
{
    let sum = column_sum(rows, column, columns);
    small(sum, MAX_PROBLEM_COEFFICIENT)
}

/// The sum of the right-hand sides lowered by 1, none where it is too large.
fn small_right_sum(rows: &[CutRow], columns: usize) -> Option<i64>
    requires rows { AreRows columns rows.now }
    requires few { length rows.now < 2 ^ 32 }
    ensures { MatchOption result
        (¬ IsWithin MAX_PROBLEM_RHS (lowered_sum_of columns rows.now).rhs)
        (λ sum. (sum ≡ (lowered_sum_of columns rows.now).rhs)
        × IsWithin MAX_PROBLEM_RHS (lowered_sum_of columns rows.now).rhs) }
{
    let sum = right_sum(rows, columns);
    let lowered = minus(sum, 1);
    small(lowered, MAX_PROBLEM_RHS)
}

/// The sums of the columns, none where one of them is too large.
fn column_sums(
    alloc: Global,
    rows: &[CutRow],
    columns: usize,
) -> Result<Option<Vec<i64>>, AllocError>
    requires { AreRows columns rows.now }
    ensures { IfOk result (λ sums. MatchOption sums
        (¬ AreWithin MAX_PROBLEM_COEFFICIENT (lowered_sum_of columns rows.now).coef)
        (λ coef. (coef.items ≡ (lowered_sum_of columns rows.now).coef)
        × AreWithin MAX_PROBLEM_COEFFICIENT (lowered_sum_of columns rows.now).coef)) }
{
    let mut sums = Vec::with_capacity(alloc, columns)?;
    for column in 0..columns {
        match small_column_sum(rows, column, columns) {
            Some(sum) => push(&mut sums, sum)?,
            None => return Ok(None),
        }
    }
    Ok(Some(sums))
}

/// The sum of the rows with its right-hand side lowered by 1, none where a number of it is too large.
pub fn lowered_sum(
    alloc: Global,
    rows: &[CutRow],
    columns: usize,
) -> Result<Option<CutRow>, AllocError>
    requires rows { AreRows columns rows.now }
    requires few { length rows.now < 2 ^ 32 }
    ensures { IfOk result (λ row. MatchOption row
        (¬ (AreWithin MAX_PROBLEM_COEFFICIENT (lowered_sum_of columns rows.now).coef
        × IsWithin MAX_PROBLEM_RHS (lowered_sum_of columns rows.now).rhs))
        (λ row. (row ≡ lowered_sum_of columns rows.now)
        × AreWithin MAX_PROBLEM_COEFFICIENT (lowered_sum_of columns rows.now).coef
        × IsWithin MAX_PROBLEM_RHS (lowered_sum_of columns rows.now).rhs)) }
{
    let Some(coef) = column_sums(alloc, rows, columns)? else {
        return Ok(None);
    };
    match small_right_sum(rows, columns) {
        Some(right) => Ok(Some(CutRow { coef, right })),
        None => Ok(None),
    }
}

/// The number of a row in a column.
fn entry(rows: &[CutRow], place: usize, column: usize) -> i64
    requires place { place < length rows.now }
    requires column { column < length (linear_at rows.now place).coef }
    ensures { result ≡ component (linear_at rows.now place).coef column }
{
    let row = &rows[place];
    row.coef[column]
}

/// The combination of the rows with the multipliers of a unit, in a column.
fn combined(rows: &[CutRow], unit: &[(u32, i64)], column: usize, columns: usize) -> i128
    requires rows { AreRows columns rows.now }
    requires few { length rows.now < 2 ^ 32 }
    requires unit { IsUnit (length rows.now) unit.now }
    requires column { column < columns }
    ensures { result ≡ combined_of rows.now unit.now column }
{
    let mut sum = 0;
    for k in 0..unit.len() {
        let (place, multiplier) = unit[k];
        let entry = entry(rows, place as usize, column);
        sum = plus_widening_product(sum, multiplier, entry);
    }
    sum
}

/// Whether a unit combines the rows to `den` times one column alone.
pub fn is_unit_of(
    rows: &[CutRow],
    unit: &[(u32, i64)],
    den: i64,
    alone: usize,
    columns: usize,
) -> bool
    requires rows { AreRows columns rows.now }
    requires few { length rows.now < 2 ^ 32 }
    requires unit { IsUnit (length rows.now) unit.now }
    ensures { IsTrue result ↔ ((k : ℕ) → k < columns
        → combined_of rows.now unit.now k ≡ (if nat_eq alone k then den else pos 0)) }
{
    for column in 0..columns {
        let wanted = if alone == column { den } else { 0 };
        if combined(rows, unit, column, columns) != i128::from(wanted) {
            return false;
        }
    }
    true
}

/// Whether the units combine the rows to `den` times each column alone.
pub(crate) fn inverts(
    rows: &[CutRow],
    units: &[Listed<(u32, i64)>],
    den: i64,
    columns: usize,
) -> bool
    requires rows { AreRows columns rows.now }
    requires few { length rows.now < 2 ^ 32 }
    requires count { length units.now ≡ columns }
    requires units { All (IsUnit (length rows.now)) units.now }
    ensures { IsTrue result ↔ Inverts columns rows.now den units.now }
{
    for column in 0..columns {
        if !is_unit_of(rows, units[column].as_slice(), den, column, columns) {
            return false;
        }
    }
    true
}
