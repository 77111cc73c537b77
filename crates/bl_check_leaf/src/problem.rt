//! The problem of a leaf, and the test of its multipliers.
ghost use Rattle.std.specs.Prelude.{◌≡◌, ◌↔◌, ◌+◌, ◌≤◌, ◌^◌, length, All, IsTrue, IfOk, OnOk, MatchOption};
ghost use Rattle.bl_limits.specs.declared.TheConstants.{MAX_CUTS};
ghost use Rattle.bl_whole.specs.Within.{IsWithin};
ghost use Rattle.bl_terms.specs.Points.{zeros as zeros_of};
ghost use Rattle.bl_terms.specs.Programs.{columns};
ghost use Rattle.bl_terms.specs.Bounds.{Fits, Proves};
ghost use Rattle.bl_model.specs.View.{IsModel};
ghost use Rattle.bl_leaf_terms.specs.Leaves.{leaf_problem as leaf_problem_of};
ghost use Rattle.bl_cert_terms.specs.Certificates.{stated_cutoff};
ghost use Rattle.bl_certtext.specs.Places.{IsPlace};
ghost use Rattle.bl_check_terms.specs.Values.{multipliers as multipliers_of};
ghost use Rattle.bl_check_walk.specs.Sites.{IsPartOf};
ghost use Rattle.bl_check_state.specs.Saying.{AreCutRows, IsReady, IsStatedInside};
ghost use Rattle.bl_check_leaf.specs.Kept.{cited_rows};

use crate::cited::add_cited;
use bl_bound::{Problem, holds};
use bl_cert_terms::Statement;
use bl_check_rules::multipliers;
use bl_check_state::{LocalCut, Said};
use bl_model::{Bilevel, Box2};
use bl_tree::plain_problem;
use std::alloc::{AllocError, Global};

/// The cost that every bilevel feasible point is to reach; none where it is stated that there is no such point.
fn cutoff_of(model: &Bilevel, statement: &Statement) -> Option<i64>
    requires { IsStatedInside model.now statement.now }
    ensures { result ≡ stated_cutoff model.now statement.now }
{
    match statement {
        Statement::Optimal { point, .. } => Some(model.cost_of(point.as_slice())),
        Statement::Infeasible => None,
    }
}

/// The problem of a leaf: the rows of the model, the value row, or a row of zeros where there is no value, and the rows
/// of the cited cuts. No row is copied.
fn leaf_problem<'a>(
    alloc: Global,
    model: &'a Bilevel,
    area: &'a Box2,
    value: Option<i64>,
    zeros: &'a [i64],
    cuts: &'a [LocalCut],
    cited: &[i64],
) -> Result<Problem<'a>, AllocError>
    requires model { IsModel model.now }
    requires part { IsPartOf model.now area.now }
    requires value { MatchOption value (Unit {0}) (IsWithin (2 ^ 62)) }
    requires zeros { zeros.now ≡ zeros_of (columns model.now) }
    requires rows { AreCutRows model.now cuts.now }
    requires there { All (IsPlace (length cuts.now)) cited.now }
    requires few { length cited.now ≤ MAX_CUTS }
    ensures value { IfOk result (λ q. q ≡ leaf_problem_of model.now area.now value (cited_rows cuts.now cited.now)) }
    ensures fits { OnOk result (Fits (leaf_problem_of model.now area.now value (cited_rows cuts.now cited.now))) }
{
    let mut problem = plain_problem(alloc, model, area, value)?;
    if value.is_none() {
        problem.row(zeros, 0)?;
    }
    add_cited(&mut problem, cuts, cited)?;
    Ok(problem)
}

/// Whether the listed multipliers prove what is stated over the box, with this value and the cited cuts.
pub(crate) fn is_leaf_proof(
    alloc: Global,
    model: &Bilevel,
    said: &Said,
    area: &Box2,
    value: Option<i64>,
    den: i64,
    cited: &[i64],
    mult: &[(i64, i64)],
) -> Result<bool, AllocError>
    requires part { IsPartOf model.now area.now }
    requires value { MatchOption value (Unit {0}) (IsWithin (2 ^ 62)) }
    requires ready { IsReady model.now said.now }
    requires there { All (IsPlace (length said.now.cuts.cuts.items)) cited.now }
    requires few { length cited.now ≤ MAX_CUTS }
    ensures { IfOk result (λ b. IsTrue b
        ↔ Proves (leaf_problem_of model.now area.now value (cited_rows said.now.cuts.cuts.items cited.now))
        (stated_cutoff model.now said.now.statement)
        (multipliers_of (length model.now.rows + 1 + length cited.now) den mult.now)) }
{
    let proof = multipliers(alloc, model.rows().len() + 1 + cited.len(), den, mult)?;
    let zeros = vec![in alloc; 0i64; model.lo().len()]?;
    let cuts = said.cuts.cuts.as_slice();
    let problem = leaf_problem(alloc, model, area, value, &zeros, cuts, cited)?;
    Ok(holds(&problem, cutoff_of(model, &said.statement), &proof))
}
