//! Proofs that close a box, made of multipliers in doubles and tested exactly.
ghost use Rattle.std.specs.Prelude.{pos, ◌≤ℤ◌, IfOk, IfSome};
ghost use Rattle.bl_terms.specs.Bounds.{Fits};
ghost use Rattle.bl_relax.specs.Relaxed.{IsRelaxed};

use bl_bound::{Problem, Proof, holds};
use bl_limits::MAX_PROOF_NUMBER;
use bl_raw::Listed;
use bl_relax::Relaxed;
use std::alloc::{AllocError, Global};
use std::num::{nearest_i64_to_f64, saturating_f64_to_i64};

/// The weights of the cost in a proof, in the order in which they are tried: small ones make short proofs.
const WEIGHTS: [f64; 3] = [1_024.0, 1_048_576.0, 1_099_511_627_776.0];

/// What the greatest multiplier of a proof without the cost is brought up to, in the order in which it is tried.
const GREATEST: [f64; 3] = [1_024.0, 1_048_576.0, 1_125_899_906_842_624.0];

/// How often a power of 2 is doubled or halved to meet the limit.
const MAX_STEPS: u32 = 200;

/// The greatest of the numbers, and 0.
fn greatest(numbers: &[f64]) -> f64 {
    let mut greatest: f64 = 0.0;
    for x in numbers {
        greatest = greatest.max(*x);
    }
    greatest
}

/// This weight, less by a power of 2 where a multiplier would pass `most` by it.
fn weight_within(multipliers: &[f64], usual: f64, most: f64) -> f64 {
    let greatest = greatest(multipliers);
    let mut weight = usual;
    for _ in 0..MAX_STEPS {
        if greatest * weight <= most {
            return weight;
        }
        weight *= 0.5;
    }
    weight
}

/// A power of 2 that brings the multipliers up to `most`.
fn factor_up_to(multipliers: &[f64], most: f64) -> f64 {
    let greatest = greatest(multipliers);
    let mut factor = weight_within(multipliers, 1.0, most);
    for _ in 0..MAX_STEPS {
        if !(greatest * factor * 2.0 <= most) {
            return factor;
        }
        factor *= 2.0;
    }
    factor
}

/// A multiplier times a factor, made whole and at least 0.
fn whole_multiplier(multiplier: f64, factor: f64) -> i64 {
    saturating_f64_to_i64(multiplier * factor + 0.5).max(0)
}

/// The multipliers times a factor, made whole.
fn whole_multipliers(
    alloc: Global,
    multipliers: &[f64],
    factor: f64,
) -> Result<Vec<i64>, AllocError> {
    let mut whole = Vec::with_capacity(alloc, multipliers.len())?;
    for multiplier in multipliers {
        whole.push(whole_multiplier(*multiplier, factor))?;
    }
    Ok(whole)
}

/// The greatest power of 2 that divides all these numbers, 1 where they are all 0.
fn common_power(den: i64, multipliers: &[i64]) -> i64
    ensures { pos 1 ≤ℤ result }
{
    let mut bits = den;
    for multiplier in multipliers {
        bits |= *multiplier;
    }
    (bits & bits.wrapping_neg()).max(1)
}

/// The proof with these numbers, over the greatest power of 2 that divides them all.
fn shortest_proof(den: i64, mut multipliers: Vec<i64>) -> Proof {
    let power = common_power(den, &multipliers);
    for multiplier in multipliers.iter_mut() {
        *multiplier /= power;
    }
    Proof {
        den: den / power,
        mult: Listed::new(multipliers),
    }
}

/// The proof of these multipliers times a factor, if it holds.
fn shown_proof(
    alloc: Global,
    problem: &Problem<'_>,
    cutoff: Option<i64>,
    den: i64,
    multipliers: &[f64],
    factor: f64,
) -> Result<Option<Relaxed>, AllocError>
    requires { Fits problem.now }
    ensures { IfOk result (λ o. IfSome o (IsRelaxed problem.now cutoff)) }
{
    let proof = shortest_proof(den, whole_multipliers(alloc, multipliers, factor)?);
    if holds(problem, cutoff, &proof) {
        return Ok(Some(Relaxed::Closed(proof)));
    }
    Ok(None)
}

/// A proof that no point of the box meets the rows, of multipliers of the rows alone.
pub(crate) fn empty_proof(
    alloc: Global,
    problem: &Problem<'_>,
    cutoff: Option<i64>,
    multipliers: &[f64],
) -> Result<Option<Relaxed>, AllocError>
    requires { Fits problem.now }
    ensures { IfOk result (λ o. IfSome o (IsRelaxed problem.now cutoff)) }
{
    for most in &GREATEST {
        let factor = factor_up_to(multipliers, *most);
        let shown = shown_proof(alloc, problem, cutoff, 0, multipliers, factor)?;
        if shown.is_some() {
            return Ok(shown);
        }
    }
    Ok(None)
}

/// A proof that no point of the box that meets the rows is below the cutoff, of multipliers beside the cost.
pub(crate) fn cutoff_proof(
    alloc: Global,
    problem: &Problem<'_>,
    cutoff: Option<i64>,
    multipliers: &[f64],
) -> Result<Option<Relaxed>, AllocError>
    requires { Fits problem.now }
    ensures { IfOk result (λ o. IfSome o (IsRelaxed problem.now cutoff)) }
{
    let most = nearest_i64_to_f64(MAX_PROOF_NUMBER);
    for usual in &WEIGHTS {
        let weight = weight_within(multipliers, *usual, most);
        let den = saturating_f64_to_i64(weight);
        let shown = shown_proof(alloc, problem, cutoff, den, multipliers, weight)?;
        if shown.is_some() {
            return Ok(shown);
        }
    }
    Ok(None)
}
