//! Handles to entries.
ghost use Rattle.std.specs.Prelude.{◌≡◌, IfOk};

use bl_fproof::Entry;
use std::alloc::{AllocError, Global};
use std::marker::Model;
use std::sync::Arc;

/// A shared handle to an entry that was put to a pool.
#[derive(Debug, Drop)]
pub struct Kept {
    entry: Arc<Entry, Global>,
}

impl Model for Kept {
    ghost use Rattle.std.specs.Arc.{arc_value};
    ghost use Rattle.bl_fproof.specs.Entries.{Admitted};

    ghost Value = { Admitted };

    ghost view = { λ kept. arc_value kept.entry };
}

impl Kept {
    pub(crate) fn new(alloc: Global, entry: Entry) -> Result<Kept, AllocError>
        ensures { IfOk result (λ kept. kept ≡ entry) }
    {
        let entry = Arc::new(alloc, entry)?;
        Ok(Kept { entry })
    }

    /// Another handle to the same entry.
    pub fn copy(&self) -> Result<Kept, AllocError>
        ensures { IfOk result (λ copy. copy ≡ self.now) }
    {
        let entry = self.entry.clone()?;
        Ok(Kept { entry })
    }

    /// The entry.
    pub fn entry(&self) -> &Entry
        ensures { result.now ≡ self.now }
    {
        &self.entry
    }
}
