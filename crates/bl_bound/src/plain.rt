//! Proofs that need no search: of one row alone, or of the cost alone.
ghost use Rattle.std.specs.Prelude.{◌≡◌, ◌↔◌, ℕ, ◌<◌, ◌≤◌, length, IsTrue, IfOk, MatchOption};
ghost use Rattle.bl_whole.specs.Within.{AreWithin};
ghost use Rattle.bl_terms.specs.Bounds.{Fits, linear_at};
ghost use Rattle.bl_bound.specs.Plain.{IsPlainProof, OnePointClause, row_alone as row_alone_of};
ghost use Rattle.bl_bound.specs.Plain.{cost_alone as cost_alone_of};
ghost use Rattle.bl_bound.specs.Sums.{least_value as least_value_of, RowCloses, CostCloses, IsFirstClosing};

use crate::problem::Problem;
use crate::proof::Proof;
use crate::sums::least_product;
use bl_limits::{MAX_COLUMNS, MAX_NUMBER, MAX_PROBLEM_COEFFICIENT};
use bl_raw::Listed;
use bl_whole::int128::plus;
use std::alloc::{AllocError, Global};

/// The least value of `coefs · z` for `z` in the box.
fn least_value(coefs: &[i64], lo: &[i64], hi: &[i64]) -> i128
    requires few { length coefs.now ≤ MAX_COLUMNS }
    requires lower { length lo.now ≡ length coefs.now }
    requires upper { length hi.now ≡ length coefs.now }
    requires coefs { AreWithin MAX_PROBLEM_COEFFICIENT coefs.now }
    requires lower_bounds { AreWithin MAX_NUMBER lo.now }
    requires upper_bounds { AreWithin MAX_NUMBER hi.now }
    ensures { result ≡ least_value_of coefs.now lo.now hi.now }
{
    let mut sum = 0;
    for j in 0..coefs.len() {
        let term = least_product(i128::from(coefs[j]), lo[j], hi[j]);
        sum = plus(sum, term);
    }
    sum
}

/// Whether a row alone is a proof.
fn row_closes(problem: &Problem<'_>, row: usize) -> bool
    requires problem_fits { Fits problem.now }
    requires row_in { row < length problem.now.rows }
    ensures { IsTrue result ↔ RowCloses problem.now row }
{
    let row = &problem.rows()[row];
    let least = least_value(row.coef(), problem.lo(), problem.hi());
    i128::from(row.rhs()) < least
}

/// The first row that alone is a proof.
fn first_row_alone(problem: &Problem<'_>) -> Option<usize>
    requires { Fits problem.now }
    ensures { MatchOption result ((r : ℕ) → r < length problem.now.rows → ¬ RowCloses problem.now r)
        (IsFirstClosing problem.now) }
{
    for row in 0..problem.rows().len() {
        if row_closes(problem, row) {
            return Some(row);
        }
    }
    None
}

/// Whether the cost alone is a proof.
fn cost_closes(problem: &Problem<'_>, cutoff: Option<i64>) -> bool
    requires { Fits problem.now }
    ensures { IsTrue result ↔ CostCloses problem.now cutoff }
{
    match cutoff {
        Some(cutoff) => {
            let least = least_value(problem.cost(), problem.lo(), problem.hi());
            i128::from(cutoff) - 1 < least
        }
        None => false,
    }
}

/// The proof of one row.
fn row_alone(alloc: Global, problem: &Problem<'_>, row: usize) -> Result<Proof, AllocError>
    requires { row < length problem.now.rows }
    ensures { IfOk result (λ w. w ≡ row_alone_of problem.now row) }
{
    let mut mult = vec![in alloc; 0i64; problem.rows().len()]?;
    mult[row] = 1;
    Ok(Proof {
        den: 0,
        mult: Listed::new(mult),
    })
}

/// The proof of the cost.
fn cost_alone(alloc: Global, problem: &Problem<'_>) -> Result<Proof, AllocError>
    ensures { IfOk result (λ w. w ≡ cost_alone_of problem.now) }
{
    let mult = vec![in alloc; 0i64; problem.rows().len()]?;
    Ok(Proof {
        den: 1,
        mult: Listed::new(mult),
    })
}

/// A proof that needs no search: the first row that alone is one, else the cost alone. It is `None` exactly where
/// there is neither. On a box of one point that is exactly where the point meets all rows and, where there is a
/// cutoff, costs less.
pub fn plain_close(
    alloc: Global,
    problem: &Problem<'_>,
    cutoff: Option<i64>,
) -> Result<Option<Proof>, AllocError>
    requires { Fits problem.now }
    ensures plain { IfOk result (IsPlainProof problem.now cutoff) }
    ensures one_point { IfOk result (OnePointClause problem.now cutoff) }
{
    if let Some(row) = first_row_alone(problem) {
        let proof = row_alone(alloc, problem, row)?;
        return Ok(Some(proof));
    }
    if cost_closes(problem, cutoff) {
        let proof = cost_alone(alloc, problem)?;
        return Ok(Some(proof));
    }
    Ok(None)
}
