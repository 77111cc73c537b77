//! What the elimination gives.
ghost use Rattle.std.specs.Prelude.{◌≡◌};
ghost use Rattle.bl_elimination.specs.declared.basis.NoBasis.TheVariants.{Memory};

use bl_raw::Listed;
use std::alloc::AllocError;
use thiserror::Error;

/// The kept rows, by their numbers among the candidates, and the inverse of their coefficients: for each column a list
/// in `units` of places in `kept` with their multipliers, which combine these rows to `den` times that column alone.
/// Numbers and places rise, and no multiplier is 0.
#[derive(Debug, Drop)]
pub struct Basis {
    pub kept: Listed<u32>,
    pub den: i64,
    pub units: Listed<Listed<(u32, i64)>>,
}

/// Why there is no basis.
#[derive(Clone, Copy, Debug, Drop, PartialEq, Eq, Error)]
pub enum NoBasis {
    /// Only so many candidates are linearly independent, fewer than there are columns.
    #[error("only {pivots} rows are linearly independent")]
    NotUnique { pivots: u32 },
    /// A number passes its limit: of the candidate with this number, from 0, or of the inverse, where the number is
    /// the count of all candidates.
    #[error("a number of the elimination is too large at row {position}")]
    TooLarge { position: u32 },
    #[error("memory ran out")]
    Memory,
}

impl From<AllocError> for NoBasis {
    ghost from_gives = { λ _ e. e ≡ Memory };

    fn from(_error: AllocError) -> NoBasis {
        NoBasis::Memory
    }
}
