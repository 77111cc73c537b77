//! Where the entries of links are looked up and kept.
ghost use Rattle.std.specs.Prelude.{◌≡◌, IfOk, IfErr, IfSome, List, Option};
ghost use Rattle.bl_fproof.specs.Entries.{Admitted};
ghost use Rattle.bl_leaf_terms.specs.Incumbents.{IsEntryFor};
ghost use Rattle.bl_source.specs.Sources.{KeepsEntries, IsKeepFailure};
ghost use Rattle.bl_source.specs.declared.source.KeepFail.TheVariants.{Memory};

use bl_fproof::Entry;
use bl_model::{Bilevel, same};
use bl_pool::{Kept, Pool, PutFail};
use std::alloc::{AllocError, Global};

/// Why an entry isn't kept.
#[derive(Debug, Drop)]
pub enum KeepFail {
    /// The entry, which is of another model than the source.
    OtherModel(Entry),
    Memory,
}

impl From<AllocError> for KeepFail {
    ghost from_gives = { λ _ e. e ≡ Memory };

    fn from(_error: AllocError) -> KeepFail {
        KeepFail::Memory
    }
}

/// Entries of the follower by link. A source gives only true entries of the model and the link that are asked for. It
/// may tell which entries it holds; it takes none away and changes none.
pub trait Source {
    /// The entries that it holds, none where it doesn't tell them.
    ghost held: { Self → Option (List Admitted) };

    /// The entry of the link, if it has one.
    fn look(
        &mut self,
        alloc: Global,
        model: &Bilevel,
        link: &[i64],
    ) -> Result<Option<Kept>, AllocError>
        ensures entry { IfOk result (λ found. IfSome found (IsEntryFor model.now link.now)) }
        ensures same { held self.new ≡ held self.old };

    /// Keeps the entry, or gives one of its link that is kept already.
    fn keep(&mut self, alloc: Global, entry: Entry) -> Result<Kept, KeepFail>
        ensures entry { IfOk result (IsEntryFor entry.program entry.link) }
        ensures refused { IfErr result (IsKeepFailure entry) }
        ensures keeps { KeepsEntries (held self.old) (held self.new) };
}

impl Source for Pool {
    ghost use Rattle.std.specs.Prelude.{Some};

    ghost held = { λ pool. Some pool.entries };

    fn look(
        &mut self,
        _alloc: Global,
        model: &Bilevel,
        link: &[i64],
    ) -> Result<Option<Kept>, AllocError> {
        if !same(self.model(), model) {
            return Ok(None);
        }
        match self.get(link) {
            Some(kept) => {
                let copy = kept.copy()?;
                Ok(Some(copy))
            }
            None => Ok(None),
        }
    }

    fn keep(&mut self, alloc: Global, entry: Entry) -> Result<Kept, KeepFail> {
        match self.put(alloc, entry) {
            Ok(kept) => Ok(kept),
            Err(PutFail::NotKept(kept)) => Ok(kept),
            Err(PutFail::OtherModel(entry)) => Err(KeepFail::OtherModel(entry)),
            Err(PutFail::Memory) => Err(KeepFail::Memory),
        }
    }
}
