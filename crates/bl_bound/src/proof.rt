//! Bound proofs, and the test that decides whether one holds.
ghost use Rattle.std.specs.Prelude.{◌≡◌, ◌↔◌, ℕ, ◌<◌, ◌≤◌, pos, ◌+ℤ◌, ◌*ℤ◌, ◌≤ℤ◌, length, IsTrue, FitsSigned};
ghost use Rattle.std.specs.Int.{w128};
ghost use Rattle.bl_whole.specs.Sums.{component, sum_below};
ghost use Rattle.bl_terms.specs.Bounds.{Fits, AreMultipliers, Proves, SumsFit, dual_bound as dual_bound_of, target_of};
ghost use Rattle.bl_terms.specs.Bounds.{least_term, least_product as least_product_of, rhs_sum};
ghost use Rattle.bl_bound.specs.Sums.{rows_part, IsWellFormed};

use crate::problem::Problem;
use crate::sums::{add_row, least_product};
use bl_limits::{MAX_COLUMNS, MAX_PROOF_NUMBER};
use bl_raw::Listed;
use bl_whole::int128::{minus, plus, times, widening_product};
use std::marker::Model;

/// Dual multipliers: a weight for the cost, and a multiplier for each row of a problem.
#[derive(Debug, Drop)]
pub struct Proof {
    pub den: i64,
    pub mult: Listed<i64>,
}

impl Model for Proof {
    ghost use Rattle.bl_terms.specs.Bounds.{Multipliers};

    ghost Value = { Multipliers };

    ghost view = { λ p. record { den = p.den; mult = p.mult } };
}

/// Whether a number of a proof is from 0 to its limit.
fn is_proof_number(number: i64) -> bool
    ensures { IsTrue result ↔ ((pos 0 ≤ℤ number) × (number ≤ℤ MAX_PROOF_NUMBER)) }
{
    0 <= number && number <= MAX_PROOF_NUMBER
}

fn are_proof_numbers(numbers: &[i64]) -> bool
    ensures { IsTrue result ↔ ((k : ℕ) → k < length numbers.now → (pos 0 ≤ℤ component numbers.now k)
        × (component numbers.now k ≤ℤ MAX_PROOF_NUMBER)) }
{
    for number in numbers {
        if !is_proof_number(*number) {
            return false;
        }
    }
    true
}

/// Whether the problem's every row has a multiplier, all numbers are from 0 to their limit, and without a cutoff the
/// cost has no weight.
fn is_well_formed(problem: &Problem<'_>, cutoff: Option<i64>, proof: &Proof) -> bool
    ensures { IsTrue result ↔ IsWellFormed problem.now cutoff proof.now }
{
    proof.mult.as_slice().len() == problem.rows().len()
        && is_proof_number(proof.den)
        && are_proof_numbers(proof.mult.as_slice())
        && (cutoff.is_some() || proof.den == 0)
}

/// What the bound has to pass.
fn target(cutoff: Option<i64>, proof: &Proof) -> i128
    requires { AreMultipliers proof.now }
    ensures { result ≡ target_of cutoff proof.now }
{
    match cutoff {
        Some(cutoff) => times(i128::from(proof.den), i128::from(cutoff) - 1),
        None => 0,
    }
}

/// Adds up the rows by their multipliers: the sums of the columns, and that of the right-hand sides.
fn add_rows(problem: &Problem<'_>, proof: &Proof, sums: &mut [i128]) -> i128
    requires rows { length proof.now.mult ≡ length problem.now.rows }
    requires fits { SumsFit problem.now proof.now }
    requires places { length problem.now.area.lo ≤ length sums.old }
    requires zeros { (j : ℕ) → j < length sums.old → component sums.old j ≡ pos 0 }
    ensures columns { (j : ℕ) → j < length problem.now.area.lo
        → component sums.new j ≡ rows_part problem.now proof.now (length problem.now.rows) j }
    ensures rhs { result ≡ rhs_sum problem.now proof.now }
{
    let rows = problem.rows();
    let mult = proof.mult.as_slice();
    let mut rhs = 0;
    for i in 0..rows.len() {
        rhs = add_row(sums, rhs, mult[i], &rows[i]);
    }
    rhs
}

/// The least term of a column, from its cost and the sum of the rows there.
fn least_term_of(den: i64, cost: i64, sum: i128, lo: i64, hi: i64) -> i128
    requires reduced { FitsSigned w128 (den *ℤ cost +ℤ sum) }
    requires low { FitsSigned w128 ((den *ℤ cost +ℤ sum) *ℤ lo) }
    requires high { FitsSigned w128 ((den *ℤ cost +ℤ sum) *ℤ hi) }
    ensures { result ≡ least_product_of (den *ℤ cost +ℤ sum) lo hi }
{
    let reduced = plus(widening_product(den, cost), sum);
    least_product(reduced, lo, hi)
}

/// The sum of the columns' least terms, from the sums of the rows.
fn least_sum(problem: &Problem<'_>, proof: &Proof, sums: &[i128]) -> i128
    requires fits { SumsFit problem.now proof.now }
    requires places { length problem.now.area.lo ≤ length sums.now }
    requires columns { (j : ℕ) → j < length problem.now.area.lo
        → component sums.now j ≡ rows_part problem.now proof.now (length problem.now.rows) j }
    ensures { result ≡ sum_below (length problem.now.area.lo) (least_term problem.now proof.now) }
{
    let cost = problem.cost();
    let lo = problem.lo();
    let hi = problem.hi();
    let mut sum = 0;
    for j in 0..lo.len() {
        let term = least_term_of(proof.den, cost[j], sums[j], lo[j], hi[j]);
        sum = plus(sum, term);
    }
    sum
}

/// The bound that the multipliers give, in one pass over the rows.
fn dual_bound(problem: &Problem<'_>, proof: &Proof) -> i128
    requires problem_fits { Fits problem.now }
    requires multipliers { AreMultipliers proof.now }
    requires rows { length proof.now.mult ≡ length problem.now.rows }
    ensures { result ≡ dual_bound_of problem.now proof.now }
{
    let mut sums = [0i128; MAX_COLUMNS];
    let rhs = add_rows(problem, proof, &mut sums);
    let least = least_sum(problem, proof, &sums);
    minus(least, rhs)
}

/// Whether the proof holds: with a cutoff `u`, that every point of the box that meets the rows costs at least `u`;
/// where its weight `den` is 0, as it has to be without a cutoff, that there is no such point. Takes one pass over
/// the rows, and no memory.
pub fn holds(problem: &Problem<'_>, cutoff: Option<i64>, proof: &Proof) -> bool
    requires { Fits problem.now }
    ensures { IsTrue result ↔ Proves problem.now cutoff proof.now }
{
    is_well_formed(problem, cutoff, proof) && target(cutoff, proof) < dual_bound(problem, proof)
}
