//! The rules of entries and of their proofs.
ghost use Rattle.std.specs.Prelude.{◌≡◌, ◌↔◌, ℤ, List, IsTrue, IfOk};
ghost use Rattle.bl_terms.specs.Bounds.{Proves, over};
ghost use Rattle.bl_terms.specs.FollowerProofs.{follower_box};
ghost use Rattle.bl_terms.specs.Responses.{IsResponse, response_cost};
ghost use Rattle.bl_cert_terms.specs.Certificates.{ProvedEntry};
ghost use Rattle.bl_certtext.specs.Places.{lower_count};
ghost use Rattle.bl_fproof.specs.Entries.{IsPointOfCost, whole_problem};
ghost use Rattle.bl_check_terms.specs.Rules.{ProvesEntry, cutoff_of_entry};
ghost use Rattle.bl_check_terms.specs.Values.{followers_area, multipliers as multipliers_of};
ghost use Rattle.bl_check_walk.specs.Sites.{IsPartOf};

use crate::listed::multipliers;
use crate::places::values_at;
use bl_bound::{Proof, holds};
use bl_fproof::FollowerRows;
use bl_model::{Bilevel, Box2};
use bl_point::{cost_at, whole_at};
use std::alloc::{AllocError, Global};

/// Whether the point lies in the follower's box, meets its rows and has this cost.
fn is_point_of_cost(
    alloc: Global,
    rows: &FollowerRows,
    point: &[i64],
    value: i64,
) -> Result<bool, AllocError>
    ensures { IfOk result (λ b. IsTrue b ↔ IsPointOfCost rows.now point.now value) }
{
    let problem = rows.problem(alloc, rows.lo(), rows.hi())?;
    Ok(whole_at(&problem, None, point) && cost_at(&problem, point) == i128::from(value))
}

/// Whether the numbers are a response to the link of the follower's problem, of this cost.
pub fn keeps_best(
    alloc: Global,
    model: &Bilevel,
    rows: &FollowerRows,
    value: i64,
    response: &[i64],
) -> Result<bool, AllocError>
    ensures { IfOk result (λ b. (link : List ℤ) → rows.now ≡ whole_problem model.now link
        → IsTrue b ↔ (IsResponse model.now link response.now
        × (response_cost model.now response.now ≡ value))) }
{
    let _columns = model.lo();
    is_point_of_cost(alloc, rows, response, value)
}

/// Whether the multipliers prove the cutoff of the follower's problem over a part of his box.
fn is_proof_over(
    alloc: Global,
    model: &Bilevel,
    rows: &FollowerRows,
    area: &Box2,
    value: Option<i64>,
    proof: &Proof,
) -> Result<bool, AllocError>
    requires part { IsPartOf model.now area.now }
    requires rows { rows.now.area ≡ follower_box model.now }
    ensures { IfOk result
        (λ b. IsTrue b ↔ Proves (over rows.now (followers_area model.now area.now)) value proof.now) }
{
    let lo = values_at(alloc, area.lo(), model.follower())?;
    let hi = values_at(alloc, area.hi(), model.follower())?;
    let problem = rows.problem(alloc, &lo, &hi)?;
    Ok(holds(&problem, value, proof))
}

/// Whether the listed multipliers of so many rows prove what an entry says over a part of the follower's box. The rows
/// are those of the follower's problem at the entry's link, and `value` is the cost that the entry tells, if it does.
pub fn keeps_entry_proof(
    alloc: Global,
    model: &Bilevel,
    lower: usize,
    rows: &FollowerRows,
    value: Option<i64>,
    area: &Box2,
    den: i64,
    mult: &[(i64, i64)],
) -> Result<bool, AllocError>
    requires lower { lower ≡ lower_count model.now }
    requires part { IsPartOf model.now area.now }
    requires rows { rows.now.area ≡ follower_box model.now }
    ensures { IfOk result (λ b. (e : ProvedEntry) → rows.now ≡ whole_problem model.now e.link
        → value ≡ cutoff_of_entry e.entry
        → IsTrue b ↔ ProvesEntry model.now e area.now (multipliers_of (lower_count model.now) den mult.now)) }
{
    let proof = multipliers(alloc, lower, den, mult)?;
    is_proof_over(alloc, model, rows, area, value, &proof)
}
