//! What closes a leaf.
ghost use Rattle.std.specs.Prelude.{◌+◌, length, map, unsigned_abs, IfOk, MatchOption};
ghost use Rattle.bl_cert_terms.specs.Certificates.{Certificate};
ghost use Rattle.bl_certtext.specs.Places.{IsLeaf};
ghost use Rattle.bl_check_terms.specs.Rules.{CitesRightly, ProvesLeaf};
ghost use Rattle.bl_check_terms.specs.Values.{multipliers as multipliers_of};
ghost use Rattle.bl_check_walk.specs.Sites.{IsPartOf};
ghost use Rattle.bl_check_state.specs.Saying.{IsLeafRule, IsReady, IsSaid};

use crate::cited::cites_rightly;
use crate::links::used_value;
use crate::problem::is_leaf_proof;
use bl_check_state::Said;
use bl_check_terms::CertRule;
use bl_model::{Bilevel, Box2};
use std::alloc::{AllocError, Global};

/// The first rule that a leaf with a bound breaks, none where it closes its box: that the box fixes the linking columns
/// and an entry says their best response where the value row is used, and that it lies in the boxes of the cited cuts;
/// and then that the multipliers prove what is stated over the box.
pub fn close(
    alloc: Global,
    model: &Bilevel,
    said: &Said,
    area: &Box2,
    den: i64,
    value_row: bool,
    cited: &[i64],
    mult: &[(i64, i64)],
) -> Result<Option<CertRule>, AllocError>
    requires part { IsPartOf model.now area.now }
    requires ready { IsReady model.now said.now }
    requires leaf { IsLeaf model.now (length said.now.cuts.cuts.items) value_row cited.now mult.now }
    ensures { IfOk result (λ broken. (c : Certificate) → IsSaid model.now said.now c → MatchOption broken
        (CitesRightly model.now c area.now value_row (map unsigned_abs cited.now)
        × ProvesLeaf model.now c area.now (multipliers_of (length model.now.rows + 1 + length cited.now) den mult.now)
        value_row (map unsigned_abs cited.now))
        (IsLeafRule (CitesRightly model.now c area.now value_row (map unsigned_abs cited.now))
        (ProvesLeaf model.now c area.now (multipliers_of (length model.now.rows + 1 + length cited.now) den mult.now)
        value_row (map unsigned_abs cited.now)))) }
{
    let value = used_value(alloc, model, said, area, value_row)?;
    if !cites_rightly(area, &said.cuts.cuts, cited, value_row, value) {
        return Ok(Some(CertRule::Cited));
    }
    let proves = is_leaf_proof(alloc, model, said, area, value, den, cited, mult)?;
    if !proves {
        return Ok(Some(CertRule::Proof));
    }
    Ok(None)
}
