//! Why an entry isn't added to a pool.
ghost use Rattle.std.specs.Prelude.{◌≡◌};
ghost use Rattle.bl_pool.specs.declared.fail.PutFail.TheVariants.{Memory};

use crate::kept::Kept;
use bl_fproof::Entry;
use std::alloc::AllocError;

/// Why an entry isn't in the pool to which it was put.
#[derive(Debug, Drop)]
pub enum PutFail {
    /// The entry, which is of another model than the pool.
    OtherModel(Entry),
    /// The entry, for which there was no place.
    NotKept(Kept),
    Memory,
}

impl From<AllocError> for PutFail {
    ghost from_gives = { λ _ e. e ≡ Memory };

    fn from(_error: AllocError) -> PutFail {
        PutFail::Memory
    }
}
