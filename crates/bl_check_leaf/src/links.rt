//! What entries say of links.
ghost use Rattle.std.specs.Prelude.{◌≡◌, ◌↔◌, ℤ, Option, Some, IsTrue, IfOk};
ghost use Rattle.bl_terms.specs.Programs.{InBox, follower_at, link_of};
ghost use Rattle.bl_cert_terms.specs.Certificates.{Certificate, IsUnanswered};
ghost use Rattle.bl_check_terms.specs.Rules.{HasFollower};
ghost use Rattle.bl_check_rules.specs.Answers.{answer_in};
ghost use Rattle.bl_check_walk.specs.Sites.{IsPartOf};
ghost use Rattle.bl_check_state.specs.Saying.{IsSaid, IsStatedInside};
ghost use Rattle.bl_check_leaf.specs.Kept.{IsFixedAnswer, IsUsedValue};

use bl_cert_terms::Statement;
use bl_check_state::Said;
use bl_model::{Bilevel, Box2};
use std::alloc::{AllocError, Global};

/// Whether an entry says that the best response to the point's link costs what the point costs the follower.
fn costs_the_least(
    alloc: Global,
    model: &Bilevel,
    said: &Said,
    point: &[i64],
) -> Result<bool, AllocError>
    requires { InBox model.now point.now }
    ensures { IfOk result (λ has. IsTrue has ↔ (answer_in said.now.answers (link_of model.now point.now)
        ≡ Some (Some (follower_at model.now point.now)))) }
{
    let link = model.link_of(alloc, point)?;
    let answer = said.answers.get(&link);
    Ok(answer == Some(Some(model.follower_of(point))))
}

/// Whether a point that is stated to be optimal costs the follower what an entry says of its link.
pub fn has_follower(alloc: Global, model: &Bilevel, said: &Said) -> Result<bool, AllocError>
    requires inside { IsStatedInside model.now said.now.statement }
    ensures { IfOk result (λ has. (c : Certificate) → IsSaid model.now said.now c
        → IsTrue has ↔ HasFollower model.now c.entries c.statement) }
{
    match &said.statement {
        Statement::Optimal { point, .. } => costs_the_least(alloc, model, said, point.as_slice()),
        Statement::Infeasible => Ok(true),
    }
}

/// What an entry says of the link that the box fixes; none where the box leaves a linking column free.
fn fixed_answer(
    alloc: Global,
    model: &Bilevel,
    said: &Said,
    area: &Box2,
) -> Result<Option<Option<i64>>, AllocError>
    requires part { IsPartOf model.now area.now }
    ensures { IfOk result (λ found. (answer : Option ℤ)
        → (found ≡ Some answer) ↔ IsFixedAnswer model.now said.now area.now answer) }
{
    if !area.fixes(model.links()) {
        return Ok(None);
    }
    let link = model.link_of(alloc, area.lo())?;
    Ok(said.answers.get(&link))
}

/// Whether the box fixes the linking columns, and an entry says that their link has no response.
pub fn is_unanswered(
    alloc: Global,
    model: &Bilevel,
    said: &Said,
    area: &Box2,
) -> Result<bool, AllocError>
    requires part { IsPartOf model.now area.now }
    ensures { IfOk result (λ none. (c : Certificate) → IsSaid model.now said.now c
        → IsTrue none ↔ IsUnanswered model.now c area.now) }
{
    let answer = fixed_answer(alloc, model, said, area)?;
    Ok(answer == Some(None))
}

/// The right side of the value row: the cost of the best response to the link that the box fixes, where the row is used
/// and an entry says it.
pub(crate) fn used_value(
    alloc: Global,
    model: &Bilevel,
    said: &Said,
    area: &Box2,
    value_row: bool,
) -> Result<Option<i64>, AllocError>
    requires part { IsPartOf model.now area.now }
    ensures { IfOk result (IsUsedValue model.now said.now area.now value_row) }
{
    if !value_row {
        return Ok(None);
    }
    let answer = fixed_answer(alloc, model, said, area)?;
    Ok(answer.unwrap_or(None))
}
