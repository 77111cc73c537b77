//! Why the reader stops at a line.
ghost use Rattle.std.specs.Prelude.{◌≡◌};
ghost use Rattle.bl_aux.specs.declared.stop.Stop.TheVariants.{Memory};

use crate::fault::AuxRule;
use std::alloc::{AllocError, AllocFailed};

/// Why the reader stops at a line.
#[derive(Debug, Drop)]
pub(crate) enum Stop {
    Rule(AuxRule),
    Memory,
}

impl From<AllocError> for Stop {
    ghost from_gives = { λ _ e. e ≡ Memory };

    fn from(_error: AllocError) -> Stop {
        Stop::Memory
    }
}

impl<T: Drop> From<AllocFailed<T>> for Stop {
    ghost from_gives = { λ _ e. e ≡ Memory };

    fn from(_error: AllocFailed<T>) -> Stop {
        Stop::Memory
    }
}
