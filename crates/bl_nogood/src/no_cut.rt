//! Why no cut is made.
ghost use Rattle.std.specs.Prelude.{◌≡◌};
ghost use Rattle.bl_nogood.specs.declared.no_cut.NoCut.TheVariants.{Memory};

use std::alloc::AllocError;
use thiserror::Error;

/// Why no cut is made at a point.
#[derive(Clone, Copy, Debug, Drop, PartialEq, Eq, Error)]
pub enum NoCut {
    /// The response costs the follower no less than the point.
    #[error("the response costs the follower {response}, and the point {point}")]
    NotBetter { point: i64, response: i64 },
    /// Only so many of the candidates are linearly independent, fewer than there are columns.
    #[error("only {pivots} rows that hold with equality are linearly independent")]
    NotUnique { pivots: u32 },
    /// A number passes its limit: of the candidate at this position, from 0, or of the cut, where the position is the
    /// count of all candidates.
    #[error("a number of the cut is too large at row {position}")]
    TooLarge { position: u32 },
    #[error("memory ran out")]
    Memory,
}

impl From<AllocError> for NoCut {
    ghost from_gives = { λ _ e. e ≡ Memory };

    fn from(_error: AllocError) -> NoCut {
        NoCut::Memory
    }
}
