//! Whether the numbers of a problem are small enough for exact arithmetic in 128 bits.
ghost use Rattle.std.specs.Prelude.{◌≡◌, ◌↔◌, ℕ, ◌^◌, ◌<◌, length, IsTrue};
ghost use Rattle.bl_whole.specs.Within.{IsWithin, AreWithin};
ghost use Rattle.bl_terms.specs.Bounds.{linear_at};

use crate::problem::ProblemRow;
use bl_limits::{MAX_PROBLEM_COEFFICIENT, MAX_PROBLEM_RHS};

/// Whether each number has a magnitude of at most `most`.
pub(crate) fn are_within(numbers: &[i64], most: u64) -> bool
    ensures { IsTrue result ↔ AreWithin most numbers.now }
{
    for number in numbers {
        if most < number.unsigned_abs() {
            return false;
        }
    }
    true
}

/// Whether the coefficients and right-hand sides of the rows are small enough.
pub(crate) fn rows_fit(rows: &[ProblemRow<'_>]) -> bool
    ensures { IsTrue result ↔ ((i : ℕ) → i < length rows.now →
        AreWithin MAX_PROBLEM_COEFFICIENT (linear_at rows.now i).coef
        × IsWithin MAX_PROBLEM_RHS (linear_at rows.now i).rhs) }
{
    for i in 0..rows.len() {
        let row = &rows[i];
        if !are_within(row.coef(), MAX_PROBLEM_COEFFICIENT)
            || MAX_PROBLEM_RHS < row.rhs().unsigned_abs()
        {
            return false;
        }
    }
    true
}
