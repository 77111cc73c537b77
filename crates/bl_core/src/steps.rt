//! The calls that enter a step, each with the tests that the step is allowed.
ghost use Rattle.std.specs.Prelude.{◌≡◌, ◌≢◌, ◌↔◌, ◌≤◌, ◌<◌, ◌+◌, length, IfOk, IfErr, OnOk, OnErr, IsTrue, option_map};
ghost use Rattle.std.specs.Arc.{arc_value};
ghost use Rattle.std.specs.Option.{option_copied};
ghost use Rattle.bl_leaf_terms.specs.Incumbents.{cutoff_of};
ghost use Rattle.bl_book_terms.specs.Books.{Claim, Back, Split, Close, Offer, Ready, Claimed, HasStatus, IsCurrent};
ghost use Rattle.bl_book_terms.specs.Books.{node_at, IsAllowed, MayClose};
ghost use Rattle.bl_core.specs.Accounts.{entered};
ghost use Rattle.bl_core.specs.Refusals.{IsUnready, IsUnclaimed, IsSplitFailure, IsCloseFailure, MayBeHalvedNow};

use crate::book::Book;
use crate::event::Event;
use crate::fail::{CloseFail, NotReady, NotYours, OtherModel, SplitFail};
use bl_cut::Cuts;
use bl_model::{Box2, Halves, same};
use bl_tree::{Incumbent, ProvedLeaf, ProvedWhy, State};
use std::alloc::Global;
use std::sync::Arc;

impl Book {
    /// A worker takes a node.
    pub fn claim(&mut self, worker: u32, node: u32) -> Result<(), NotReady>
        requires spare { 1 ≤ self.old.spare }
        requires worker { worker < self.old.ledger.book.workers }
        ensures ok { OnOk result (self.new ≡ entered self.old (Claim worker node)) }
        ensures allowed { OnOk result (IsAllowed self.old.ledger.book (Claim worker node)) }
        ensures err { IfErr result (λ fail. IsUnready self.old.ledger.book node fail.kept) }
        ensures unchanged { OnErr result (self.new ≡ self.old) }
    {
        self.check_ready(node)?;
        self.enter(Event::Claim { worker, node });
        Ok(())
    }

    /// A worker gives a node back that it has claimed.
    pub fn back(&mut self, worker: u32, node: u32) -> Result<(), NotYours>
        requires spare { 1 ≤ self.old.spare }
        requires worker { worker < self.old.ledger.book.workers }
        ensures ok { OnOk result (self.new ≡ entered self.old (Back worker node)) }
        ensures allowed { OnOk result (IsAllowed self.old.ledger.book (Back worker node)) }
        ensures err { IfErr result (λ fail. IsUnclaimed self.old.ledger.book worker node fail.kept) }
        ensures unchanged { OnErr result (self.new ≡ self.old) }
    {
        self.claim_of(worker, node)?;
        self.enter(Event::Back { worker, node });
        Ok(())
    }

    /// A worker splits a node that it has claimed. The halves have these cuts. Returns the numbers of the low and the
    /// high half. At a refusal what is handed in is given up, but for the licence where the book is full.
    pub fn split(
        &mut self,
        worker: u32,
        node: u32,
        halves: Halves,
        why: ProvedWhy,
        cuts: Cuts,
    ) -> Result<(u32, u32), SplitFail>
        requires spare { 1 ≤ self.old.spare }
        requires worker { worker < self.old.ledger.book.workers }
        ensures ok { OnOk result (self.new ≡ entered self.old (Split worker node halves why cuts)) }
        ensures numbers { IfOk result (λ numbers. (numbers.0 ≡ length self.old.ledger.book.nodes)
            × (numbers.1 ≡ length self.old.ledger.book.nodes + 1)) }
        ensures allowed { OnOk result
            (IsAllowed self.old.ledger.book (Split worker node halves why cuts)) }
        ensures err { IfErr result (IsSplitFailure self.old.ledger.book worker node halves why) }
        ensures unchanged { OnErr result (self.new ≡ self.old) }
    {
        self.check_split(worker, node, &halves, &why)?;
        let made = self.made();
        if made + 2 > self.limit() {
            return Err(SplitFail::Full { made, why });
        }
        self.enter(Event::Split {
            worker,
            node,
            halves,
            why,
            cuts,
        });
        Ok((made, made + 1))
    }

    /// A worker closes a node that it has claimed. At a refusal the leaf is given up.
    pub fn close(&mut self, worker: u32, node: u32, leaf: ProvedLeaf) -> Result<(), CloseFail>
        requires spare { 1 ≤ self.old.spare }
        requires worker { worker < self.old.ledger.book.workers }
        ensures ok { OnOk result (self.new ≡ entered self.old (Close worker node leaf)) }
        ensures allowed { OnOk result (IsAllowed self.old.ledger.book (Close worker node leaf)) }
        ensures err { IfErr result (IsCloseFailure self.old.ledger.book worker node leaf) }
        ensures unchanged { OnErr result (self.new ≡ self.old) }
    {
        self.check_close(worker, node, &leaf)?;
        self.enter(Event::Close { worker, node, leaf });
        Ok(())
    }

    /// A worker hands in an incumbent, which becomes the best where it is better. At a refusal it is given up.
    pub fn offer(
        &mut self,
        worker: u32,
        incumbent: Arc<Incumbent, Global>,
    ) -> Result<(), OtherModel>
        requires spare { 1 ≤ self.old.spare }
        requires worker { worker < self.old.ledger.book.workers }
        ensures ok { OnOk result (self.new ≡ entered self.old (Offer worker (arc_value incumbent))) }
        ensures allowed { OnOk result
            (IsAllowed self.old.ledger.book (Offer worker (arc_value incumbent))) }
        ensures err { OnErr result ((arc_value incumbent).program ≢ self.old.ledger.book.program) }
        ensures unchanged { OnErr result (self.new ≡ self.old) }
    {
        if !same(incumbent.model(), self.model()) {
            return Err(OtherModel);
        }
        self.enter(Event::Offer { worker, incumbent });
        Ok(())
    }

    /// Whether the node is ready.
    fn check_ready(&self, node: u32) -> Result<(), NotReady>
        ensures ok { OnOk result (HasStatus self.now.ledger.book node Ready) }
        ensures err { IfErr result (λ fail. IsUnready self.now.ledger.book node fail.kept) }
    {
        match self.state(node) {
            Some(State::Ready) => Ok(()),
            kept => Err(NotReady { kept }),
        }
    }

    /// The best value at the claim of a node by this worker.
    pub(crate) fn claim_of(&self, worker: u32, node: u32) -> Result<Option<i64>, NotYours>
        ensures ok { IfOk result (λ best. HasStatus self.now.ledger.book node (Claimed worker best)) }
        ensures err { IfErr result (λ fail. IsUnclaimed self.now.ledger.book worker node fail.kept) }
    {
        let kept = self.state(node);
        if let Some(State::Claimed { worker: by, best }) = kept
            && by == worker
        {
            return Ok(best);
        }
        Err(NotYours { kept })
    }

    /// Whether a box is that of a node that is there.
    fn is_box_of(&self, node: u32, area: &Box2) -> bool
        requires { node < length self.now.ledger.book.nodes }
        ensures { IsTrue result ↔ (area.now ≡ (node_at self.now.ledger.book.nodes node).area) }
    {
        match self.area_of(node) {
            Some(own) => area.is_same(own),
            None => unreachable!(),
        }
    }

    /// Whether a node may be split so where the book isn't full.
    fn check_split(
        &self,
        worker: u32,
        node: u32,
        halves: &Halves,
        why: &ProvedWhy,
    ) -> Result<(), SplitFail>
        ensures ok { OnOk result
            (MayBeHalvedNow self.now.ledger.book worker node halves.now why.now) }
        ensures err { IfErr result
            (IsSplitFailure self.now.ledger.book worker node halves.now why.now) }
    {
        let best = self.claim_of(worker, node)?;
        if !same(why.model(), self.model()) {
            return Err(SplitFail::OtherModel);
        }
        if !self.is_box_of(node, halves.parent()) || !self.is_box_of(node, why.area()) {
            return Err(SplitFail::OtherBox);
        }
        if let Some(kept) = best
            && !reaches(why.cutoff(), kept)
        {
            return Err(SplitFail::OldCutoff { kept });
        }
        Ok(())
    }

    /// Whether a node may be closed so.
    fn check_close(&self, worker: u32, node: u32, leaf: &ProvedLeaf) -> Result<(), CloseFail>
        ensures ok { OnOk result (MayClose self.now.ledger.book worker node leaf.now) }
        ensures err { IfErr result (IsCloseFailure self.now.ledger.book worker node leaf.now) }
    {
        self.claim_of(worker, node)?;
        if !same(leaf.model(), self.model()) {
            return Err(CloseFail::OtherModel);
        }
        if !self.is_box_of(node, leaf.area()) {
            return Err(CloseFail::OtherBox);
        }
        Ok(())
    }
}

/// Whether an incumbent sets a cutoff that is at most this value.
fn reaches(cutoff: Option<&Arc<Incumbent, Global>>, value: i64) -> bool
    ensures { IsTrue result
        ↔ IsCurrent (Some value) (cutoff_of (option_map arc_value (option_copied cutoff.entry))) }
{
    match cutoff {
        Some(cutoff) => cutoff.value() <= value,
        None => false,
    }
}
