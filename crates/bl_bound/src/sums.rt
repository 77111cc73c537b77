//! The sums of a bound proof, which fit 128 bits where the problem fits.
ghost use Rattle.std.specs.Prelude.{◌≡◌, ℕ, ◌<◌, ◌≤◌, ◌+ℤ◌, ◌*ℤ◌, pos, length, FitsSigned};
ghost use Rattle.std.specs.Int.{w128};
ghost use Rattle.bl_whole.specs.Sums.{component, sum_below};
ghost use Rattle.bl_terms.specs.Bounds.{least_product as least_of};

use crate::problem::ProblemRow;
use bl_whole::int128::{plus, plus_widening_product, times, widening_product};

/// The least value of `factor * x` for `x` from `lo` to `hi`.
pub(crate) fn least_product(factor: i128, lo: i64, hi: i64) -> i128
    requires low { FitsSigned w128 (factor *ℤ lo) }
    requires high { FitsSigned w128 (factor *ℤ hi) }
    ensures { result ≡ least_of factor lo hi }
{
    let end = if factor < 0 { hi } else { lo };
    times(factor, i128::from(end))
}

/// Adds to each sum `factor` times the number at its place.
fn add_multiple(sums: &mut [i128], factor: i64, numbers: &[i64])
    requires places { length numbers.now ≤ length sums.old }
    requires fits { (j : ℕ) → j < length numbers.now
        → FitsSigned w128 (component sums.old j +ℤ factor *ℤ component numbers.now j) }
    ensures { (j : ℕ) → j < length numbers.now
        → component sums.new j ≡ component sums.old j +ℤ factor *ℤ component numbers.now j }
{
    for j in 0..numbers.len() {
        sums[j] = plus_widening_product(sums[j], factor, numbers[j]);
    }
}

/// Adds `factor` times a row to the sums of its columns, and gives `rhs` with `factor` times its right-hand side.
pub(crate) fn add_row(sums: &mut [i128], rhs: i128, factor: i64, row: &ProblemRow<'_>) -> i128
    requires places { length row.now.coef ≤ length sums.old }
    requires fits { (j : ℕ) → j < length row.now.coef
        → FitsSigned w128 (component sums.old j +ℤ factor *ℤ component row.now.coef j) }
    requires rhs_fits { FitsSigned w128 (rhs +ℤ factor *ℤ row.now.rhs) }
    ensures columns { (j : ℕ) → j < length row.now.coef
        → component sums.new j ≡ component sums.old j +ℤ factor *ℤ component row.now.coef j }
    ensures rhs { result ≡ rhs +ℤ factor *ℤ row.now.rhs }
{
    if factor == 0 {
        return rhs;
    }
    add_multiple(sums, factor, row.coef());
    plus_widening_product(rhs, factor, row.rhs())
}
