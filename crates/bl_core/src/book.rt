//! The book and what it tells.
ghost use Rattle.std.specs.Prelude.{◌≡◌, ◌≤◌, [], length, option_map, slice_get, IfOk, OnOk, OnErr, MatchOption};
ghost use Rattle.std.specs.Prelude.{◌<◌, ◌∷◌, ℕ};
ghost use Rattle.std.specs.Arc.{arc_value};
ghost use Rattle.std.specs.Option.{option_copied};
ghost use Rattle.bl_limits.specs.declared.TheConstants.{MAX_NODES, MAX_WORKERS};
ghost use Rattle.bl_leaf_terms.specs.Incumbents.{cutoff_of};
ghost use Rattle.bl_book_terms.specs.Books.{Ready, Closed, HasStatus, node_at, opening, IsAllowed};
ghost use Rattle.bl_core.specs.Accounts.{entered, live_count, state_at, IsNextReady, IsSplitInto, IsUnsplit, IsKept};
ghost use Rattle.bl_core.specs.Accounts.{IsUnclosed};
ghost use Rattle.bl_core.specs.Events.{event_of};
ghost use Rattle.bl_core.specs.declared.node.Origin.TheVariants as origin;
ghost use Rattle.bl_core.specs.declared.node.Status.TheVariants as status;

use crate::event::Event;
use crate::node::{Node, Origin, Status, state_of};
use crate::tables::{
    add_event, area_of, best_at, closed_at, count_live, cuts_of_node, first_ready, next_best,
    row_of, split_at, write_rows,
};
use bl_cut::Cuts;
use bl_model::{Bilevel, Box2, Halves};
use bl_tree::{Incumbent, ProvedLeaf, State};
use std::alloc::{AllocError, Global};
use std::marker::Model;
use std::sync::Arc;

/// How many steps room is made for at once. The lists grow by doubling, so that a long run is linear all the same.
const MORE_STEPS: u32 = 1_024;

/// The book of a search that workers share. A node is a number, given in the order in which nodes are made; the root is
/// node 0, and of a split the low half comes before the high one.
#[derive(Debug, Drop)]
pub struct Book {
    model: Arc<Bilevel, Global>,
    workers: u32,
    limit: u32,
    root: Arc<Box2, Global>,
    no_cuts: Cuts,
    nodes: Vec<Node>,
    journal: Vec<Event>,
    best: Option<u32>,
    live: u32,
    spare: u32,
}

impl Model for Book {
    ghost use Rattle.bl_core.specs.Accounts.{KeptBook};

    ghost Value = { KeptBook };

    ghost use Rattle.bl_core.specs.Tables.{account_of, IsBook};

    ghost view = { account_of };

    ghost invariant = { IsBook };
}

impl Book {
    /// The book of a model before any step: at most so many workers, numbered from 0, and nodes.
    pub fn start(
        alloc: Global,
        model: Arc<Bilevel, Global>,
        workers: u32,
        limit: u32,
    ) -> Result<Book, AllocError>
        requires workers_least { 1 ≤ workers }
        requires workers_most { workers ≤ MAX_WORKERS }
        requires limit_least { 1 ≤ limit }
        requires limit_most { limit ≤ MAX_NODES }
        ensures { IfOk result (λ b. b ≡ record {
          spare = 0;
          ledger = record {
            book = opening (arc_value model) workers limit;
            journal = [];
          };
        }) }
    {
        let _is_model = model.sense();
        let root = Box2::root(alloc, &model)?;
        let root = Arc::new(alloc, root)?;
        let no_cuts = Cuts::none(alloc)?;
        let nodes = root_alone(alloc)?;
        Ok(Book {
            model,
            workers,
            limit,
            root,
            no_cuts,
            nodes,
            journal: Vec::new(alloc),
            best: None,
            live: 1,
            spare: 0,
        })
    }

    /// Makes room for a step, where there is none. There are at most 2^32 - 1 steps.
    pub fn make_room(&mut self) -> Result<(), AllocError>
        ensures ledger { self.new.ledger ≡ self.old.ledger }
        ensures ok { OnOk result (1 ≤ self.new.spare) }
        ensures err { OnErr result (self.new ≡ self.old) }
    {
        if self.spare > 0 {
            return Ok(());
        }
        if self.journal.len() >= (u32::MAX - MORE_STEPS) as usize {
            return Err(AllocError);
        }
        self.journal.reserve(MORE_STEPS as usize)?;
        self.nodes.reserve(2 * MORE_STEPS as usize)?;
        self.spare = MORE_STEPS;
        Ok(())
    }

    /// Enters a step.
    pub(crate) fn enter(&mut self, event: Event)
        requires spare { 1 ≤ self.old.spare }
        requires allowed { IsAllowed self.old.ledger.book (event_of event) }
        ensures { self.new ≡ entered self.old (event_of event) }
    {
        let place = self.journal.len() as u32;
        let value = value_of(best_at(&self.journal, self.best));
        self.best = next_best(&self.journal, self.best, &event);
        self.live = count_live(self.live, &event);
        write_rows(&mut self.nodes, &event, place, value);
        add_event(&mut self.journal, event);
        self.spare -= 1;
    }

    /// The model.
    pub fn model(&self) -> &Arc<Bilevel, Global>
        ensures value { arc_value result.now ≡ self.now.ledger.book.program }
        ensures kept { IsKept self.now.ledger }
    {
        &self.model
    }

    /// How many workers there may be.
    pub fn workers(&self) -> u32
        ensures value { result ≡ self.now.ledger.book.workers }
        ensures kept { IsKept self.now.ledger }
    {
        self.workers
    }

    /// How many nodes there may be.
    pub fn limit(&self) -> u32
        ensures value { result ≡ self.now.ledger.book.limit }
        ensures kept { IsKept self.now.ledger }
    {
        self.limit
    }

    /// How many nodes were made.
    pub fn made(&self) -> u32
        ensures value { result ≡ length self.now.ledger.book.nodes }
        ensures few { length self.now.ledger.book.nodes ≤ MAX_NODES }
    {
        self.nodes.len() as u32
    }

    /// How many nodes are ready or claimed.
    pub fn live(&self) -> u32
        ensures { result ≡ live_count self.now.ledger.book.nodes }
    {
        self.live
    }

    /// How far a node is, none past the last node.
    pub fn state(&self, node: u32) -> Option<State>
        ensures { result ≡ state_at self.now.ledger.book node }
    {
        match row_of(&self.nodes, node) {
            Some(row) => Some(state_of(row.status)),
            None => None,
        }
    }

    /// The best incumbent.
    pub fn best(&self) -> Option<&Incumbent>
        ensures { option_copied result ≡ self.now.ledger.book.best }
    {
        match self.shared_best() {
            Some(best) => Some(best),
            None => None,
        }
    }

    /// The handle to the best incumbent.
    fn shared_best(&self) -> Option<&Arc<Incumbent, Global>>
        ensures { option_map arc_value (option_copied result) ≡ self.now.ledger.book.best }
    {
        best_at(&self.journal, self.best)
    }

    /// Another handle to the best incumbent.
    pub fn share_best(&self) -> Result<Option<Arc<Incumbent, Global>>, AllocError>
        ensures { IfOk result (λ best. option_map arc_value best ≡ self.now.ledger.book.best) }
    {
        match self.shared_best() {
            Some(best) => {
                let best = best.clone()?;
                Ok(Some(best))
            }
            None => Ok(None),
        }
    }

    /// The first ready node from a number on.
    pub fn next_ready(&self, from: u32) -> Option<u32>
        ensures { MatchOption result
            ((k : ℕ) → from ≤ k → ¬ HasStatus self.now.ledger.book k Ready)
            (IsNextReady self.now.ledger.book from) }
    {
        first_ready(&self.nodes, from)
    }

    /// How many steps were entered.
    pub fn events(&self) -> u64
        ensures { result ≡ length self.now.ledger.journal }
    {
        self.journal.len() as u64
    }

    /// The step at a place of the journal, none past the last.
    pub fn event(&self, place: u64) -> Option<&Event>
        ensures { option_map event_of (option_copied result) ≡ slice_get self.now.ledger.journal place }
    {
        self.journal.get(place as usize)
    }

    /// The box of a node, none past the last node.
    pub fn area_of(&self, node: u32) -> Option<&Box2>
        ensures { MatchOption result (length self.now.ledger.book.nodes ≤ node)
            (λ a. (node < length self.now.ledger.book.nodes)
            × (a.now ≡ (node_at self.now.ledger.book.nodes node).area)) }
    {
        match self.shared_area(node) {
            Some(area) => Some(area),
            None => None,
        }
    }

    /// The handle to the box of a node, none past the last node.
    pub(crate) fn shared_area(&self, node: u32) -> Option<&Arc<Box2, Global>>
        ensures { MatchOption result (length self.now.ledger.book.nodes ≤ node)
            (λ a. (node < length self.now.ledger.book.nodes)
            × (arc_value a.now ≡ (node_at self.now.ledger.book.nodes node).area)) }
    {
        match row_of(&self.nodes, node) {
            Some(row) => area_of(&self.root, &self.journal, row.origin),
            None => None,
        }
    }

    /// The cuts of a node, none past the last node.
    pub(crate) fn cuts_of(&self, node: u32) -> Option<&Cuts>
        ensures { MatchOption result (length self.now.ledger.book.nodes ≤ node)
            (λ c. (node < length self.now.ledger.book.nodes)
            × (c.now ≡ (node_at self.now.ledger.book.nodes node).cuts)) }
    {
        match row_of(&self.nodes, node) {
            Some(row) => cuts_of_node(&self.no_cuts, &self.journal, row.origin),
            None => None,
        }
    }

    /// The halves of a node that is split, and the numbers of the low and the high one.
    pub fn split_of(&self, node: u32) -> Option<(&Halves, u32, u32)>
        ensures { MatchOption result (IsUnsplit self.now.ledger.book node)
            (λ s. IsSplitInto self.now.ledger.book node s.0.now s.1 s.2) }
    {
        match row_of(&self.nodes, node) {
            Some(row) => split_at(&self.journal, row.status),
            None => None,
        }
    }

    /// The leaf that closed a node.
    pub fn leaf_of(&self, node: u32) -> Option<&ProvedLeaf>
        ensures { MatchOption result (IsUnclosed self.now.ledger.book node)
            (λ l. HasStatus self.now.ledger.book node (Closed l.now)) }
    {
        match row_of(&self.nodes, node) {
            Some(row) => closed_at(&self.journal, row.status),
            None => None,
        }
    }
}

/// The row of the root.
fn root_alone(alloc: Global) -> Result<Vec<Node>, AllocError>
    ensures { IfOk result (λ rows. rows.items ≡ record { origin = origin.Root; status = status.Ready } ∷ []) }
{
    let mut nodes = Vec::new(alloc);
    nodes.push(Node {
        origin: Origin::Root,
        status: Status::Ready,
    })?;
    Ok(nodes)
}

/// The value of an incumbent.
fn value_of(best: Option<&Arc<Incumbent, Global>>) -> Option<i64>
    ensures { result ≡ cutoff_of (option_map arc_value (option_copied best.entry)) }
{
    match best {
        Some(best) => Some(best.value()),
        None => None,
    }
}
