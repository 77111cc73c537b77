//! The entries of links.
ghost use Rattle.std.specs.Prelude.{◌≡◌, ◌≤◌, IfOk, IfErr};
ghost use Rattle.std.specs.Arc.{arc_value};
ghost use Rattle.bl_terms.specs.Responses.{IsLink};
ghost use Rattle.bl_fproof.specs.Entries.{IsAdmitted};
ghost use Rattle.bl_follower.specs.Answers.{IsFailure};
ghost use Rattle.bl_leaf_terms.specs.Incumbents.{IsEntryFor};
ghost use Rattle.bl_source.specs.Sources.{KeepsEntries};

use crate::source::{KeepFail, Source};
use bl_follower::{FollowerFail, Scratch, solve_follower_with};
use bl_fproof::Entry;
use bl_model::Bilevel;
use bl_pool::{Kept, Pool, PutFail};
use std::alloc::{AllocError, Global};
use std::sync::Arc;

/// The entry of a link: what the source has of it, else what the follower's solver finds, which is then kept. The
/// solver may take `budget` nodes; the scratch is room for its relaxations.
pub fn entry_for<S: Source>(
    alloc: Global,
    model: &Arc<Bilevel, Global>,
    link: &[i64],
    pool: &mut S,
    budget: u32,
    scratch: &mut Scratch,
) -> Result<Kept, FollowerFail>
    requires link { IsLink (arc_value model.now) link.now }
    requires budget { 1 ≤ budget }
    ensures entry { IfOk result (IsEntryFor (arc_value model.now) link.now) }
    ensures err { IfErr result (IsFailure (arc_value model.now) link.now budget) }
    ensures keeps { KeepsEntries (S.held pool.old) (S.held pool.new) }
{
    if let Some(kept) = pool.look(alloc, model, link)? {
        return Ok(kept);
    }
    let entry = solved(alloc, model, link, budget, scratch)?;
    let kept = keep(alloc, entry, pool)?;
    Ok(kept)
}

/// What the follower's solver finds of a link.
fn solved(
    alloc: Global,
    model: &Arc<Bilevel, Global>,
    link: &[i64],
    budget: u32,
    scratch: &mut Scratch,
) -> Result<Entry, FollowerFail>
    requires link { IsLink (arc_value model.now) link.now }
    requires budget { 1 ≤ budget }
    ensures entry { IfOk result (IsEntryFor (arc_value model.now) link.now) }
    ensures err { IfErr result (IsFailure (arc_value model.now) link.now budget) }
{
    let solved = solve_follower_with(alloc, model.clone()?, link, budget, scratch)?;
    let model = model.clone()?;
    let link = Vec::from_slice(alloc, link)?;
    let _sense = model.sense();
    Ok(Entry::make(model, link, solved.answered))
}

/// Keeps an entry. One that the source refuses is kept on its own.
fn keep<S: Source>(alloc: Global, entry: Entry, pool: &mut S) -> Result<Kept, AllocError>
    requires { IsAdmitted entry }
    ensures entry { IfOk result (IsEntryFor entry.program entry.link) }
    ensures keeps { KeepsEntries (S.held pool.old) (S.held pool.new) }
{
    match pool.keep(alloc, entry) {
        Ok(kept) => Ok(kept),
        Err(KeepFail::OtherModel(entry)) => keep_alone(alloc, entry),
        Err(KeepFail::Memory) => Err(AllocError),
    }
}

/// Keeps an entry in a pool of its own.
fn keep_alone(alloc: Global, entry: Entry) -> Result<Kept, AllocError>
    requires { IsAdmitted entry }
    ensures entry { IfOk result (IsEntryFor entry.program entry.link) }
{
    let model = entry.model().clone()?;
    let mut pool = Pool::make(alloc, model, 1)?;
    match pool.put(alloc, entry) {
        Ok(kept) => Ok(kept),
        Err(PutFail::NotKept(kept)) => Ok(kept),
        Err(PutFail::OtherModel(_)) => unreachable!(),
        Err(PutFail::Memory) => Err(AllocError),
    }
}
