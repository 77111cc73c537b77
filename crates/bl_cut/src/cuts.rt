//! Lists of cuts.
ghost use Rattle.std.specs.Prelude.{◌≡◌, ◌↔◌, ◌<◌, ◌≤◌, [], length, IsTrue, IfOk, MatchOption};
ghost use Rattle.std.specs.Arc.{arc_value};
ghost use Rattle.bl_cut.specs.Cuts.{AreProvedCuts, AreCutsOf, with_cut, cut_at};

use crate::list::CutList;
use crate::proved::ProvedCut;
use bl_model::Bilevel;
use std::alloc::{AllocError, Global};
use std::marker::Model;
use std::sync::Arc;

/// A shared list of at most `MAX_CUTS` shared cuts, of whatever models.
#[derive(Debug, Drop)]
pub struct Cuts {
    list: Arc<CutList, Global>,
}

impl Model for Cuts {
    ghost use Rattle.std.specs.Prelude.{List};
    ghost use Rattle.std.specs.Arc.{arc_value};
    ghost use Rattle.bl_cut_terms.specs.NoGoods.{NoGoodCut};
    ghost use Rattle.bl_cut.specs.Cuts.{AreProvedCuts};

    ghost Value = { List NoGoodCut };

    ghost view = { λ c. arc_value c.list };

    ghost invariant = { λ c. AreProvedCuts (arc_value c.list) };
}

impl Cuts {
    /// The list without cuts.
    pub fn none(alloc: Global) -> Result<Cuts, AllocError>
        ensures { IfOk result (λ cuts. cuts ≡ []) }
    {
        let list = Arc::new(alloc, CutList::none(alloc))?;
        Ok(Cuts { list })
    }

    /// The list with this cut as its last, and without its first where there are `MAX_CUTS` already.
    pub fn add(&self, alloc: Global, cut: Arc<ProvedCut, Global>) -> Result<Cuts, AllocError>
        ensures { IfOk result (λ cuts. cuts ≡ with_cut self.now (arc_value cut)) }
    {
        let list = self.list.with(alloc, cut)?;
        let list = Arc::new(alloc, list)?;
        Ok(Cuts { list })
    }

    /// Another handle to the same list.
    pub fn copy(&self) -> Result<Cuts, AllocError>
        ensures { IfOk result (λ copy. copy ≡ self.now) }
    {
        let list = self.list.clone()?;
        Ok(Cuts { list })
    }

    /// Whether all cuts are of this model.
    pub fn are_of(&self, model: &Bilevel) -> bool
        ensures { IsTrue result ↔ AreCutsOf model.now self.now }
    {
        self.list.is_of(model)
    }

    /// How many cuts there are, at most `MAX_CUTS`.
    pub fn count(&self) -> u32
        ensures value { result ≡ length self.now }
        ensures cuts { AreProvedCuts self.now }
    {
        self.list.cuts().len() as u32
    }

    /// The cut at a place, none past the last.
    pub fn at(&self, place: u32) -> Option<&Arc<ProvedCut, Global>>
        ensures { MatchOption result (length self.now ≤ place)
            (λ c. (place < length self.now) × (arc_value c.now ≡ cut_at self.now place)) }
    {
        let place = place as usize;
        let cuts = self.list.cuts();
        if place < cuts.len() {
            Some(&cuts[place])
        } else {
            None
        }
    }
}
