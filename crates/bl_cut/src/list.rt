//! A list of cuts, and whether all are of one model.
ghost use Rattle.std.specs.Prelude.{◌≡◌, ◌↔◌, ◌<◌, [], length, map, IsTrue, IfOk};
ghost use Rattle.std.specs.Arc.{arc_value};
ghost use Rattle.bl_cut.specs.Cuts.{AreProvedCuts, AreCutsOf, AreOfOne, with_cut, cut_at};

use crate::proved::ProvedCut;
use bl_limits::MAX_CUTS;
use bl_model::{Bilevel, same};
use std::alloc::{AllocError, Global};
use std::marker::Model;
use std::sync::Arc;

/// At most `MAX_CUTS` shared cuts, and whether all of them are of one model.
#[derive(Debug, Drop)]
pub(crate) struct CutList {
    cuts: Vec<Arc<ProvedCut, Global>>,
    of_one: bool,
}

impl Model for CutList {
    ghost use Rattle.std.specs.Prelude.{List, map};
    ghost use Rattle.std.specs.Arc.{arc_value};
    ghost use Rattle.bl_cut_terms.specs.NoGoods.{NoGoodCut};
    ghost use Rattle.bl_cut.specs.Cuts.{KeepsCuts};

    ghost Value = { List NoGoodCut };

    ghost view = { λ l. map arc_value l.cuts.items };

    ghost invariant = { λ l. KeepsCuts l.of_one (map arc_value l.cuts.items) };
}

impl CutList {
    /// The list without cuts. Takes no memory.
    pub(crate) fn none(alloc: Global) -> CutList
        ensures value { result ≡ [] }
        ensures proved { AreProvedCuts result }
    {
        CutList {
            cuts: Vec::new(alloc),
            of_one: true,
        }
    }

    /// The list with this cut as its last, and without its first where there are `MAX_CUTS` already.
    pub(crate) fn with(
        &self,
        alloc: Global,
        cut: Arc<ProvedCut, Global>,
    ) -> Result<CutList, AllocError>
        ensures value { IfOk result (λ l. l ≡ with_cut self.now (arc_value cut)) }
        ensures proved { IfOk result AreProvedCuts }
    {
        let continues = self.is_of(cut.model());
        let cuts = extended(alloc, &self.cuts, cut)?;
        let of_one = continues || are_of_one(&cuts);
        Ok(CutList { cuts, of_one })
    }

    /// Whether all cuts are of this model.
    pub(crate) fn is_of(&self, model: &Bilevel) -> bool
        ensures { IsTrue result ↔ AreCutsOf model.now self.now }
    {
        self.cuts.len() == 0 || (self.of_one && same(model_at(&self.cuts, 0), model))
    }

    /// The cuts.
    pub(crate) fn cuts(&self) -> &[Arc<ProvedCut, Global>]
        ensures value { map arc_value result.now ≡ self.now }
        ensures proved { AreProvedCuts self.now }
    {
        &self.cuts
    }
}

/// The model of the cut at a place.
fn model_at(cuts: &[Arc<ProvedCut, Global>], place: usize) -> &Bilevel
    requires { place < length cuts.now }
    ensures { result.now ≡ (cut_at (map arc_value cuts.now) place).program }
{
    cuts[place].model()
}

/// Whether all cuts are of the first one's model.
fn are_of_one(cuts: &[Arc<ProvedCut, Global>]) -> bool
    ensures { IsTrue result ↔ AreOfOne (map arc_value cuts.now) }
{
    for place in 0..cuts.len() {
        if !same(model_at(cuts, place), model_at(cuts, 0)) {
            return false;
        }
    }
    true
}

/// Handles to the same cuts.
fn copied(
    alloc: Global,
    cuts: &[Arc<ProvedCut, Global>],
) -> Result<Vec<Arc<ProvedCut, Global>>, AllocError>
    ensures { IfOk result (λ copies. map arc_value copies.items ≡ map arc_value cuts.now) }
{
    let mut copies = Vec::with_capacity(alloc, MAX_CUTS)?;
    for cut in cuts {
        let copy = cut.clone()?;
        copies.push(copy)?;
    }
    Ok(copies)
}

/// Handles to the cuts and a further one, without the first where the list is full.
fn extended(
    alloc: Global,
    cuts: &[Arc<ProvedCut, Global>],
    cut: Arc<ProvedCut, Global>,
) -> Result<Vec<Arc<ProvedCut, Global>>, AllocError>
    ensures { IfOk result (λ all. map arc_value all.items ≡ with_cut (map arc_value cuts.now) (arc_value cut)) }
{
    let from = if cuts.len() < MAX_CUTS { 0 } else { 1 };
    let mut all = copied(alloc, &cuts[from..])?;
    all.push(cut)?;
    Ok(all)
}
