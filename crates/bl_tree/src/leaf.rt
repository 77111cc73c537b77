//! Closed leaves.
ghost use Rattle.std.specs.Prelude.{◌≡◌, ◌↔◌, ◌≤◌, ◌^◌, length, IsTrue, OnOk, IfOk, IfErr, option_map, MatchOption};
ghost use Rattle.std.specs.Prelude.{All};
ghost use Rattle.std.specs.Arc.{arc_value};
ghost use Rattle.std.specs.Option.{option_copied};
ghost use Rattle.bl_terms.specs.Points.{IsArea, IsWithinArea};
ghost use Rattle.bl_terms.specs.Programs.{root};
ghost use Rattle.bl_terms.specs.Responses.{NoResponse};
ghost use Rattle.bl_whole.specs.Within.{IsWithin};
ghost use Rattle.bl_limits.specs.declared.TheConstants.{MAX_CUTS};
ghost use Rattle.bl_model.specs.View.{IsModel};
ghost use Rattle.bl_fproof.specs.Entries.{IsAdmitted};
ghost use Rattle.bl_fproof.specs.Steps.{entry_of};
ghost use Rattle.bl_cut_terms.specs.NoGoods.{cut_of};
ghost use Rattle.bl_cut.specs.Cuts.{IsProvedCut};
ghost use Rattle.bl_leaf_terms.specs.Incumbents.{cutoff_of};
ghost use Rattle.bl_leaf_terms.specs.Leaves.{IsClosed, IsClosedLeaf, IsBounded, AreDistinctCuts};
ghost use Rattle.bl_tree.specs.Closing.{evidence_of, cuts_used, entry_used, IsOfModel, IsFirstOutside, HasItsCuts};
ghost use Rattle.bl_tree.specs.Closing.{HasItsLink, CitesFewCuts, IsAnswered, IsProofWith, IsLeafFailure};
ghost use Rattle.bl_tree.specs.Bounds.{IsOfBox, IsBoundFailure};
ghost use Rattle.bl_tree.specs.declared.leaf.LeafFail.TheVariants.{HasResponse, Memory};

use crate::distinct::are_distinct;
use crate::incumbent::{Incumbent, cutoff_by};
use crate::licence::is_incumbent_of;
use crate::problem::{cut_at, is_link_at, leaf_problem, value_at};
use bl_bound::{Proof, holds};
use bl_cut::Cuts;
use bl_fproof::Answered;
use bl_limits::MAX_CUTS;
use bl_model::{Bilevel, Box2, same};
use bl_pool::Kept;
use std::alloc::{AllocError, Global};
use std::marker::Model;
use std::sync::Arc;

/// What shows that a box is closed.
#[derive(Debug, Drop)]
pub enum Leaf {
    /// A bound proof over the rows of the model, the value row of an entry, where there is one, and the rows of cuts.
    /// Without an entry there is a row of zeros at the place of the value row, and the multiplier 0.
    Bounded {
        proof: Proof,
        cuts: Cuts,
        value_row: Option<Kept>,
    },
    /// The follower has no response to the link that the box fixes.
    NoAnswer(Kept),
}

/// A closed box of a model: no bilevel feasible point of it costs less than the incumbent that set the cutoff. Where
/// there was none, the box has no bilevel feasible point.
#[derive(Debug, Drop)]
pub struct ProvedLeaf {
    model: Arc<Bilevel, Global>,
    area: Arc<Box2, Global>,
    cutoff: Option<Arc<Incumbent, Global>>,
    leaf: Leaf,
}

impl Model for ProvedLeaf {
    ghost use Rattle.std.specs.Prelude.{option_map};
    ghost use Rattle.std.specs.Arc.{arc_value};
    ghost use Rattle.bl_leaf_terms.specs.Leaves.{ClosedLeaf, IsClosedLeaf};
    ghost use Rattle.bl_tree.specs.Closing.{evidence_of};

    ghost Value = { ClosedLeaf };

    ghost view = { λ l. record {
      program = arc_value l.model;
      area = arc_value l.area;
      cutoff = option_map arc_value l.cutoff;
      evidence = evidence_of l.leaf;
    } };

    ghost invariant = { λ l. IsClosedLeaf (record {
      program = arc_value l.model;
      area = arc_value l.area;
      cutoff = option_map arc_value l.cutoff;
      evidence = evidence_of l.leaf;
    }) };
}

impl ProvedLeaf {
    /// The closed leaf of these parts.
    pub fn make(
        model: Arc<Bilevel, Global>,
        area: Arc<Box2, Global>,
        cutoff: Option<Arc<Incumbent, Global>>,
        leaf: Leaf,
    ) -> ProvedLeaf
        requires { IsClosedLeaf (record {
          program = arc_value model;
          area = arc_value area;
          cutoff = option_map arc_value cutoff;
          evidence = evidence_of leaf;
        }) }
        ensures { result ≡ record {
          program = arc_value model;
          area = arc_value area;
          cutoff = option_map arc_value cutoff;
          evidence = evidence_of leaf;
        } }
    {
        ProvedLeaf {
            model,
            area,
            cutoff,
            leaf,
        }
    }

    /// The model.
    pub fn model(&self) -> &Arc<Bilevel, Global>
        ensures value { arc_value result.now ≡ self.now.program }
        ensures shown { IsClosedLeaf self.now }
        ensures closed { IsClosed self.now.program self.now.area (cutoff_of self.now.cutoff) }
    {
        &self.model
    }

    /// The box.
    pub fn area(&self) -> &Arc<Box2, Global>
        ensures value { arc_value result.now ≡ self.now.area }
        ensures shown { IsClosedLeaf self.now }
        ensures closed { IsClosed self.now.program self.now.area (cutoff_of self.now.cutoff) }
    {
        &self.area
    }

    /// The incumbent that set the cutoff, where there was one.
    pub fn cutoff(&self) -> Option<&Arc<Incumbent, Global>>
        ensures value { option_map arc_value (option_copied result) ≡ self.now.cutoff }
        ensures shown { IsClosedLeaf self.now }
        ensures closed { IsClosed self.now.program self.now.area (cutoff_of self.now.cutoff) }
    {
        self.cutoff.as_ref()
    }

    /// What shows that the box is closed.
    pub fn leaf(&self) -> &Leaf
        ensures value { evidence_of result.now ≡ self.now.evidence }
        ensures shown { IsClosedLeaf self.now }
        ensures closed { IsClosed self.now.program self.now.area (cutoff_of self.now.cutoff) }
    {
        &self.leaf
    }
}

/// Why a leaf isn't proved: the first test that fails.
#[derive(Clone, Copy, Debug, PartialEq, Eq)]
pub enum LeafFail {
    /// The incumbent, a cut or an entry is of another model.
    OtherModel,
    /// More than `MAX_CUTS` cuts are cited, or two of them have the same box and row.
    TooMany,
    /// The box of this cut, numbered from 0 among those that are cited, doesn't contain the leaf's.
    CutArea { cut: u32 },
    /// An entry is used, and the box leaves a linking column free.
    LinkFree,
    /// The entry that is used is of another link than the box's.
    OtherLink,
    /// The entry that is to have no response has one.
    HasResponse,
    /// The entry that is to have a response has none.
    NoValue,
    /// The bound proof fails.
    Proof,
    Memory,
}

impl From<AllocError> for LeafFail {
    ghost from_gives = { λ _ e. e ≡ Memory };

    fn from(_error: AllocError) -> LeafFail {
        LeafFail::Memory
    }
}

/// Makes the closed leaf where it is shown. At a refusal all that was handed in is given up.
pub fn prove_leaf(
    alloc: Global,
    model: Arc<Bilevel, Global>,
    area: Arc<Box2, Global>,
    cutoff: Option<Arc<Incumbent, Global>>,
    leaf: Leaf,
) -> Result<ProvedLeaf, LeafFail>
    requires { IsWithinArea (arc_value area) (root (arc_value model)) }
    ensures ok { IfOk result (λ l. l ≡ record {
      program = arc_value model;
      area = arc_value area;
      cutoff = option_map arc_value cutoff;
      evidence = evidence_of leaf;
    }) }
    ensures err { IfErr result
        (IsLeafFailure (arc_value model) (arc_value area) (option_map arc_value cutoff) leaf) }
{
    check_leaf(alloc, &model, &area, cutoff.as_ref(), &leaf)?;
    Ok(ProvedLeaf::make(model, area, cutoff, leaf))
}

/// Whether the leaf is shown, and why not.
fn check_leaf(
    alloc: Global,
    model: &Bilevel,
    area: &Box2,
    best: Option<&Arc<Incumbent, Global>>,
    leaf: &Leaf,
) -> Result<(), LeafFail>
    requires { IsWithinArea area.now (root model.now) }
    ensures ok { OnOk result (IsClosedLeaf (record {
      program = model.now;
      area = area.now;
      cutoff = option_map arc_value (option_copied best.entry);
      evidence = evidence_of leaf.now;
    })) }
    ensures err { IfErr result
        (IsLeafFailure model.now area.now (option_map arc_value (option_copied best.entry)) leaf.now) }
{
    if !is_of_model(model, best, leaf) {
        return Err(LeafFail::OtherModel);
    }
    if !cites_few_cuts(leaf) {
        return Err(LeafFail::TooMany);
    }
    if let Some(cut) = first_outside(area, leaf) {
        return Err(LeafFail::CutArea { cut });
    }
    check_link(model, area, best, leaf)?;
    check_shown(alloc, model, area, best, leaf)
}

/// The entry that a leaf uses, where it uses one.
fn kept_of(leaf: &Leaf) -> Option<&Kept>
    ensures { option_copied result ≡ entry_used leaf.now }
{
    match leaf {
        Leaf::Bounded { value_row, .. } => value_row.as_ref(),
        Leaf::NoAnswer(kept) => Some(kept),
    }
}

/// Whether a leaf cites few cuts, no two of which have the same box and row.
fn cites_few_cuts(leaf: &Leaf) -> bool
    ensures { IsTrue result ↔ CitesFewCuts leaf.now }
{
    match leaf {
        Leaf::Bounded { cuts, .. } => are_few(cuts),
        Leaf::NoAnswer(_) => true,
    }
}

/// Whether the cuts are few, and no two of them have the same box and row.
fn are_few(cuts: &Cuts) -> bool
    ensures { IsTrue result ↔ ((length cuts.now ≤ MAX_CUTS) × AreDistinctCuts cuts.now) }
{
    cuts.count() as usize <= MAX_CUTS && are_distinct(cuts)
}

/// Whether all that the leaf uses is of the model.
fn is_of_model(model: &Bilevel, best: Option<&Arc<Incumbent, Global>>, leaf: &Leaf) -> bool
    ensures { IsTrue result
        ↔ IsOfModel model.now (option_map arc_value (option_copied best.entry)) leaf.now }
{
    if !is_incumbent_of(model, best) || !is_entry_of(model, leaf) {
        return false;
    }
    are_cuts_of(model, leaf)
}

/// Whether the entry that a leaf uses is of the model.
fn is_entry_of(model: &Bilevel, leaf: &Leaf) -> bool
    ensures { IsTrue result ↔ MatchOption (entry_used leaf.now) (Unit {0}) (λ e. e.program ≡ model.now) }
{
    match kept_of(leaf) {
        Some(kept) => same(kept.entry().model(), model),
        None => true,
    }
}

/// Whether the cuts that a leaf cites are of the model.
fn are_cuts_of(model: &Bilevel, leaf: &Leaf) -> bool
    ensures { IsTrue result ↔ All (λ c. c.program ≡ model.now) (cuts_used leaf.now) }
{
    match leaf {
        Leaf::Bounded { cuts, .. } => cuts.are_of(model),
        Leaf::NoAnswer(_) => true,
    }
}

/// The first cited cut whose box doesn't contain the leaf's.
fn first_outside(area: &Box2, leaf: &Leaf) -> Option<u32>
    ensures { MatchOption result (All (λ c. IsWithinArea area.now (cut_of c).area) (cuts_used leaf.now))
        (IsFirstOutside area.now (cuts_used leaf.now)) }
{
    match leaf {
        Leaf::Bounded { cuts, .. } => first_cut_outside(area, cuts),
        Leaf::NoAnswer(_) => None,
    }
}

/// The first of these cuts whose box doesn't contain the box.
fn first_cut_outside(area: &Box2, cuts: &Cuts) -> Option<u32>
    ensures { MatchOption result (All (λ c. IsWithinArea area.now (cut_of c).area) cuts.now)
        (IsFirstOutside area.now cuts.now) }
{
    for place in 0..cuts.count() {
        if !area.within(cut_at(cuts, place).area()) {
            return Some(place);
        }
    }
    None
}

/// Whether the box fixes the link of the entry that the leaf uses.
fn check_link(
    model: &Bilevel,
    area: &Box2,
    best: Option<&Arc<Incumbent, Global>>,
    leaf: &Leaf,
) -> Result<(), LeafFail>
    requires within { IsWithinArea area.now (root model.now) }
    requires cuts { HasItsCuts model.now area.now (option_map arc_value (option_copied best)) leaf.now }
    ensures ok { OnOk result
        (HasItsLink model.now area.now (option_map arc_value (option_copied best.entry)) leaf.now) }
    ensures err { IfErr result
        (IsLeafFailure model.now area.now (option_map arc_value (option_copied best.entry)) leaf.now) }
    ensures area { OnOk result (MatchOption (entry_used leaf.now) (Unit {0}) (λ _. IsArea area.now)) }
{
    let Some(kept) = kept_of(leaf) else {
        return Ok(());
    };
    if !area.fixes(model.links()) {
        return Err(LeafFail::LinkFree);
    }
    if !is_link_at(kept.entry().link(), area.lo(), model.links()) {
        return Err(LeafFail::OtherLink);
    }
    Ok(())
}

/// Whether the leaf's evidence shows that the box is closed.
fn check_shown(
    alloc: Global,
    model: &Bilevel,
    area: &Box2,
    best: Option<&Arc<Incumbent, Global>>,
    leaf: &Leaf,
) -> Result<(), LeafFail>
    requires within { IsWithinArea area.now (root model.now) }
    requires link { HasItsLink model.now area.now (option_map arc_value (option_copied best)) leaf.now }
    requires area { MatchOption (entry_used leaf.now) (Unit {0}) (λ _. IsArea area.now) }
    ensures ok { OnOk result (IsClosedLeaf (record {
      program = model.now;
      area = area.now;
      cutoff = option_map arc_value (option_copied best.entry);
      evidence = evidence_of leaf.now;
    })) }
    ensures err { IfErr result
        (IsLeafFailure model.now area.now (option_map arc_value (option_copied best.entry)) leaf.now) }
{
    let cutoff = cutoff_by(best);
    match leaf {
        Leaf::Bounded {
            proof,
            cuts,
            value_row,
        } => check_bound(alloc, model, area, cutoff, proof, cuts, value_row.as_ref()),
        Leaf::NoAnswer(kept) => check_no_answer(kept),
    }
}

/// Whether an entry has no response.
fn check_no_answer(kept: &Kept) -> Result<(), LeafFail>
    ensures ok { OnOk result (entry_of kept.now.answered ≡ NoResponse) }
    ensures err { IfErr result (λ fail. (fail ≡ HasResponse) × IsAnswered kept.now) }
    ensures admitted { IsAdmitted kept.now }
{
    match kept.entry().answered() {
        Answered::Best { .. } => Err(LeafFail::HasResponse),
        Answered::NoResponse { .. } => Ok(()),
    }
}

/// Whether the multipliers prove the cutoff over the box, with the cuts and with the value of the entry, where there is
/// one.
fn check_bound(
    alloc: Global,
    model: &Bilevel,
    area: &Box2,
    cutoff: Option<i64>,
    proof: &Proof,
    cuts: &Cuts,
    value_row: Option<&Kept>,
) -> Result<(), LeafFail>
    requires within { IsWithinArea area.now (root model.now) }
    requires cuts { All (λ c. c.program ≡ model.now) cuts.now }
    requires areas { All (λ c. IsWithinArea area.now (cut_of c).area) cuts.now }
    requires few { length cuts.now ≤ MAX_CUTS }
    requires distinct { AreDistinctCuts cuts.now }
    requires link { MatchOption (option_copied value_row) (Unit {0}) (IsOfBox model.now area.now) }
    ensures ok { OnOk result
        (IsBounded model.now area.now cutoff proof.now cuts.now (option_copied value_row.entry)) }
    ensures err { IfErr result
        (IsBoundFailure model.now area.now cutoff proof.now cuts.now (option_copied value_row.entry)) }
    ensures model { OnOk result (IsModel model.now) }
    ensures area { OnOk result (IsArea area.now) }
{
    let value = value_at(model, area, value_row);
    if value_row.is_some() && value.is_none() {
        return Err(LeafFail::NoValue);
    }
    if !is_proof(alloc, model, area, cutoff, proof, cuts, value)? {
        return Err(LeafFail::Proof);
    }
    Ok(())
}

/// Whether the multipliers prove the cutoff over the box, with the cuts and this value.
fn is_proof(
    alloc: Global,
    model: &Bilevel,
    area: &Box2,
    cutoff: Option<i64>,
    proof: &Proof,
    cuts: &Cuts,
    value: Option<i64>,
) -> Result<bool, AllocError>
    requires within { IsWithinArea area.now (root model.now) }
    requires cuts { All (λ c. c.program ≡ model.now) cuts.now }
    requires value { MatchOption value (Unit {0}) (IsWithin (2 ^ 62)) }
    ensures proof { IfOk result (λ b. IsTrue b ↔ IsProofWith model.now area.now cutoff proof.now cuts.now value) }
    ensures proved { OnOk result (All IsProvedCut cuts.now) }
    ensures model { OnOk result (IsModel model.now) }
    ensures area { OnOk result (IsArea area.now) }
{
    let zeros = vec![in alloc; 0i64; model.lo().len()]?;
    let problem = leaf_problem(alloc, model, area, value, &zeros, cuts)?;
    if !holds(&problem, cutoff, proof) {
        return Ok(false);
    }
    let place = model.rows().len();
    Ok(value.is_some() || proof.mult.as_slice()[place] == 0)
}
