//! Licences to split a box.
ghost use Rattle.std.specs.Prelude.{◌≡◌, ◌↔◌, IsTrue, IfOk, IfErr, OnErr, option_map, MatchOption};
ghost use Rattle.std.specs.Arc.{arc_value};
ghost use Rattle.std.specs.Option.{option_copied};
ghost use Rattle.bl_terms.specs.Points.{IsArea, IsWithinArea, InArea};
ghost use Rattle.bl_terms.specs.Programs.{root};
ghost use Rattle.bl_terms.specs.Bounds.{Fits};
ghost use Rattle.bl_bound.specs.Plain.{IsBetterPoint};
ghost use Rattle.bl_cut_terms.specs.NoGoods.{HasBetterResponse};
ghost use Rattle.bl_leaf_terms.specs.Incumbents.{IsIncumbent};
ghost use Rattle.bl_leaf_terms.specs.Nodes.{IsNodeLicence, IsFreeLicence, IsFixedLicence};
ghost use Rattle.bl_tree.specs.Licences.{IsWhyFailure};
ghost use Rattle.bl_tree.specs.declared.licence.WhyFail.TheVariants.{Memory};

use crate::incumbent::{Incumbent, cutoff_by};
use crate::problem::{plain_problem, value_at};
use bl_bound::Problem;
use bl_fproof::FollowerRows;
use bl_licence::{Why, why_holds};
use bl_model::{Bilevel, Box2, same};
use bl_point::whole_at;
use bl_pool::Kept;
use std::alloc::{AllocError, Global};
use std::marker::Model;
use std::sync::Arc;

/// A licence that holds to split a box of a model, with the incumbent that set the cutoff. Where the box fixes the
/// linking columns, it has the entry of their link.
#[derive(Debug, Drop)]
pub struct ProvedWhy {
    model: Arc<Bilevel, Global>,
    area: Arc<Box2, Global>,
    cutoff: Option<Arc<Incumbent, Global>>,
    kept: Option<Kept>,
    why: Why,
}

impl Model for ProvedWhy {
    ghost use Rattle.std.specs.Prelude.{option_map};
    ghost use Rattle.std.specs.Arc.{arc_value};
    ghost use Rattle.bl_leaf_terms.specs.Nodes.{NodeLicence, IsNodeLicence};

    ghost Value = { NodeLicence };

    ghost view = { λ l. record {
      program = arc_value l.model;
      area = arc_value l.area;
      cutoff = option_map arc_value l.cutoff;
      entry = l.kept;
      why = l.why;
    } };

    ghost invariant = { λ l. IsNodeLicence (record {
      program = arc_value l.model;
      area = arc_value l.area;
      cutoff = option_map arc_value l.cutoff;
      entry = l.kept;
      why = l.why;
    }) };
}

impl ProvedWhy {
    /// The licence of these parts.
    pub fn make(
        model: Arc<Bilevel, Global>,
        area: Arc<Box2, Global>,
        cutoff: Option<Arc<Incumbent, Global>>,
        kept: Option<Kept>,
        why: Why,
    ) -> ProvedWhy
        requires { IsNodeLicence (record {
          program = arc_value model;
          area = arc_value area;
          cutoff = option_map arc_value cutoff;
          entry = kept;
          why = why;
        }) }
        ensures { result ≡ record {
          program = arc_value model;
          area = arc_value area;
          cutoff = option_map arc_value cutoff;
          entry = kept;
          why = why;
        } }
    {
        ProvedWhy {
            model,
            area,
            cutoff,
            kept,
            why,
        }
    }

    /// The model.
    pub fn model(&self) -> &Arc<Bilevel, Global>
        ensures value { arc_value result.now ≡ self.now.program }
        ensures licence { IsNodeLicence self.now }
    {
        &self.model
    }

    /// The box.
    pub fn area(&self) -> &Arc<Box2, Global>
        ensures value { arc_value result.now ≡ self.now.area }
        ensures licence { IsNodeLicence self.now }
    {
        &self.area
    }

    /// The incumbent that set the cutoff, where there was one.
    pub fn cutoff(&self) -> Option<&Arc<Incumbent, Global>>
        ensures value { option_map arc_value (option_copied result) ≡ self.now.cutoff }
        ensures licence { IsNodeLicence self.now }
    {
        self.cutoff.as_ref()
    }

    /// The entry of the link that the box fixes. Where it fixes none, this is of no account.
    pub fn kept(&self) -> Option<&Kept>
        ensures value { option_copied result ≡ self.now.entry }
        ensures licence { IsNodeLicence self.now }
    {
        self.kept.as_ref()
    }

    /// Why the box is split.
    pub fn why(&self) -> &Why
        ensures value { result.now ≡ self.now.why }
        ensures licence { IsNodeLicence self.now }
    {
        &self.why
    }
}

/// Why a box may not be split.
#[derive(Clone, Copy, Debug, PartialEq, Eq)]
pub enum WhyFail {
    /// The licence doesn't hold, or an incumbent or an entry that it needs is missing or of another model.
    NotLicensed,
    Memory,
}

impl From<AllocError> for WhyFail {
    ghost from_gives = { λ _ e. e ≡ Memory };

    fn from(_error: AllocError) -> WhyFail {
        WhyFail::Memory
    }
}

/// Makes the licence where it holds. At a refusal all that was handed in is given up. Where the box leaves a linking
/// column free `kept` isn't looked at.
pub fn prove_why(
    alloc: Global,
    model: Arc<Bilevel, Global>,
    area: Arc<Box2, Global>,
    cutoff: Option<Arc<Incumbent, Global>>,
    kept: Option<Kept>,
    why: Why,
) -> Result<ProvedWhy, WhyFail>
    requires { IsWithinArea (arc_value area) (root (arc_value model)) }
    ensures ok { IfOk result (λ l. l ≡ record {
      program = arc_value model;
      area = arc_value area;
      cutoff = option_map arc_value cutoff;
      entry = kept;
      why = why;
    }) }
    ensures err { IfErr result (IsWhyFailure (record {
      program = arc_value model;
      area = arc_value area;
      cutoff = option_map arc_value cutoff;
      entry = kept;
      why = why;
    })) }
{
    if !is_licensed(alloc, &model, &area, cutoff.as_ref(), kept.as_ref(), &why)? {
        return Err(WhyFail::NotLicensed);
    }
    Ok(ProvedWhy::make(model, area, cutoff, kept, why))
}

/// Whether the incumbent, where there is one, is of the model.
pub(crate) fn is_incumbent_of(model: &Bilevel, best: Option<&Arc<Incumbent, Global>>) -> bool
    ensures program { IsTrue result
        ↔ MatchOption (option_map arc_value (option_copied best.entry)) (Unit {0}) (λ f. f.program ≡ model.now) }
    ensures incumbent { MatchOption (option_map arc_value (option_copied best.entry)) (Unit {0}) IsIncumbent }
{
    match best {
        Some(best) => same(best.model(), model),
        None => true,
    }
}

/// Whether the licence holds.
fn is_licensed(
    alloc: Global,
    model: &Bilevel,
    area: &Box2,
    best: Option<&Arc<Incumbent, Global>>,
    kept: Option<&Kept>,
    why: &Why,
) -> Result<bool, AllocError>
    requires { IsWithinArea area.now (root model.now) }
    ensures { IfOk result (λ b. IsTrue b ↔ IsNodeLicence (record {
      program = model.now;
      area = area.now;
      cutoff = option_map arc_value (option_copied best.entry);
      entry = option_copied kept.entry;
      why = why.now;
    })) }
{
    if !is_incumbent_of(model, best) {
        return Ok(false);
    }
    let cutoff = cutoff_by(best);
    if area.fixes(model.links()) {
        is_licensed_by_value(alloc, model, area, cutoff, kept, why)
    } else {
        is_licensed_plainly(alloc, model, area, cutoff, why)
    }
}

/// Whether the licence holds in a box that fixes the linking columns.
fn is_licensed_by_value(
    alloc: Global,
    model: &Bilevel,
    area: &Box2,
    cutoff: Option<i64>,
    kept: Option<&Kept>,
    why: &Why,
) -> Result<bool, AllocError>
    requires { IsWithinArea area.now (root model.now) }
    ensures licence { IfOk result (λ b. IsTrue b
        ↔ MatchOption (option_copied kept.entry) ⊥ (λ e. IsFixedLicence model.now area.now cutoff e why.now)) }
    ensures area { IfOk result (λ b. IsTrue b → IsArea area.now) }
{
    let Some(value) = value_at(model, area, kept) else {
        return Ok(false);
    };
    let problem = plain_problem(alloc, model, area, Some(value))?;
    why_holds(alloc, &problem, cutoff, why)
}

/// Whether the licence holds in a box that leaves a linking column free.
fn is_licensed_plainly(
    alloc: Global,
    model: &Bilevel,
    area: &Box2,
    cutoff: Option<i64>,
    why: &Why,
) -> Result<bool, AllocError>
    requires { IsWithinArea area.now (root model.now) }
    ensures licence { IfOk result (λ b. IsTrue b ↔ IsFreeLicence model.now area.now cutoff why.now) }
    ensures area { IfOk result (λ b. IsTrue b → IsArea area.now) }
{
    let problem = plain_problem(alloc, model, area, None)?;
    match why {
        Why::Better { point, response } => {
            let point = point.as_slice();
            is_bettered(alloc, model, &problem, cutoff, point, response.as_slice())
        }
        _ => why_holds(alloc, &problem, cutoff, why),
    }
}

/// Whether the point is one of the problem that costs less than the cutoff, while the response costs the follower less
/// there.
fn is_bettered(
    alloc: Global,
    model: &Bilevel,
    problem: &Problem<'_>,
    cutoff: Option<i64>,
    point: &[i64],
    response: &[i64],
) -> Result<bool, AllocError>
    requires fits { Fits problem.now }
    requires within { IsWithinArea problem.now.area (root model.now) }
    ensures { IfOk result (λ b. IsTrue b ↔ (IsBetterPoint problem.now cutoff point.now
        × HasBetterResponse model.now point.now response.now)) }
{
    if !whole_at(problem, cutoff, point) {
        return Ok(false);
    }
    is_better_response(alloc, model, point, response)
}

/// Whether the response is one to the link of a point of the model's box, and costs the follower less than the point.
fn is_better_response(
    alloc: Global,
    model: &Bilevel,
    point: &[i64],
    response: &[i64],
) -> Result<bool, AllocError>
    requires { InArea (root model.now) point.now }
    ensures { IfOk result (λ b. IsTrue b ↔ HasBetterResponse model.now point.now response.now) }
{
    let link = model.link_of(alloc, point)?;
    let rows = FollowerRows::make(alloc, model, &link)?;
    let problem = rows.problem(alloc, rows.lo(), rows.hi())?;
    let cost = model.follower_of(point);
    Ok(whole_at(&problem, Some(cost), response))
}
