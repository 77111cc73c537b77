//! The pool.
ghost use Rattle.std.specs.Prelude.{◌≡◌, ◌<◌, [], length, None, IfSome, IfOk, OnErr};
ghost use Rattle.std.specs.Arc.{arc_value};
ghost use Rattle.std.specs.Option.{option_copied};
ghost use Rattle.bl_fproof.specs.Entries.{IsAdmitted};
ghost use Rattle.bl_pool.specs.Pools.{IsEntryAt, IsPool, entry_of_link, with_entry};
ghost use Rattle.bl_pool.specs.Puts.{IsPut};

use crate::fail::PutFail;
use crate::kept::Kept;
use bl_fproof::Entry;
use bl_model::{Bilevel, same};
use indexmap::IndexMap;
use std::alloc::{AllocError, Global};
use std::marker::Model;
use std::sync::Arc;

/// Entries of one model, one for each link and a limited number of them.
#[derive(Debug, Drop)]
pub struct Pool {
    model: Arc<Bilevel, Global>,
    most: u32,
    entries: IndexMap<Vec<i64>, Kept>,
}

impl Model for Pool {
    ghost use Rattle.std.specs.Arc.{arc_value};
    ghost use Rattle.std.specs.HashMap.{values};
    ghost use Rattle.bl_pool.specs.Pools.{EntryPool, IsPool};
    ghost use Rattle.bl_pool.specs.Links.{AreByLink};

    ghost Value = { EntryPool };

    ghost view = { λ p. record { program = arc_value p.model; most = p.most; entries = values p.entries } };

    ghost invariant = { λ p. AreByLink p.entries.entries
        × IsPool (record { program = arc_value p.model; most = p.most; entries = values p.entries }) };
}

impl Pool {
    /// A pool without entries, which takes at most `most` entries of this model.
    pub fn make(alloc: Global, model: Arc<Bilevel, Global>, most: u32) -> Result<Pool, AllocError>
        ensures { IfOk result
            (λ pool. pool ≡ record { program = arc_value model; most = most; entries = [] }) }
    {
        Ok(Pool {
            model,
            most,
            entries: IndexMap::new(alloc),
        })
    }

    /// The model that its entries are of.
    pub fn model(&self) -> &Arc<Bilevel, Global>
        ensures value { arc_value result.now ≡ self.now.program }
        ensures pool { IsPool self.now }
    {
        &self.model
    }

    /// The entry of the link, none where there is none.
    pub fn get(&self, link: &[i64]) -> Option<&Kept>
        ensures value { option_copied result ≡ entry_of_link link.now self.now.entries }
        ensures entry { IfSome result (λ kept. IsEntryAt self.now.program link.now kept.now) }
        ensures pool { IsPool self.now }
    {
        self.entries.get(link)
    }

    /// Keeps the entry where there is none of its link yet, and gives the one that is kept of it.
    pub fn put(&mut self, alloc: Global, entry: Entry) -> Result<Kept, PutFail>
        ensures put { IsPut self.old entry result self.new }
        ensures entry { IfOk result (IsEntryAt self.old.program entry.link) }
    {
        if !same(&self.model, entry.model()) {
            return Err(PutFail::OtherModel(entry));
        }
        match self.get(entry.link()) {
            Some(kept) => Ok(kept.copy()?),
            None => self.put_new(alloc, entry),
        }
    }

    /// Keeps an entry of a link of which there is none, where there is a place.
    fn put_new(&mut self, alloc: Global, entry: Entry) -> Result<Kept, PutFail>
        requires model { entry.program ≡ self.old.program }
        requires admitted { IsAdmitted entry }
        requires absent { entry_of_link entry.link self.old.entries ≡ None }
        ensures put { IsPut self.old entry result self.new }
        ensures entry { IfOk result (IsEntryAt self.old.program entry.link) }
    {
        let kept = Kept::new(alloc, entry)?;
        if self.entries.len() >= self.most as usize {
            return Err(PutFail::NotKept(kept));
        }
        Ok(self.add(alloc, kept)?)
    }

    /// Adds an entry of a link of which there is none.
    fn add(&mut self, alloc: Global, kept: Kept) -> Result<Kept, AllocError>
        requires model { kept.program ≡ self.old.program }
        requires absent { entry_of_link kept.link self.old.entries ≡ None }
        requires place { length self.old.entries < self.old.most }
        ensures kept { IfOk result (λ copy. copy ≡ kept) }
        ensures added { IfOk result (λ _. self.new ≡ with_entry self.old kept) }
        ensures err { OnErr result (self.new ≡ self.old) }
    {
        let link = Vec::from_slice(alloc, kept.entry().link())?;
        let copy = kept.copy()?;
        self.entries.insert(link, kept)?;
        Ok(copy)
    }
}
