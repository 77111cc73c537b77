//! Why a reader stops.
ghost use Rattle.std.specs.Prelude.{◌≡◌};
ghost use Rattle.bl_mps_read.specs.declared.stop.Stop.TheVariants.{Rule, Memory};

use bl_mps_terms::MpsRule;
use std::alloc::{AllocError, AllocFailed};

/// Why a reader stops before the end.
#[derive(Clone, Copy, Debug)]
pub enum Stop {
    /// The text breaks a rule.
    Rule(MpsRule),
    Memory,
}

impl From<MpsRule> for Stop {
    ghost from_gives = { λ rule stop. stop ≡ Rule rule };

    fn from(rule: MpsRule) -> Stop {
        Stop::Rule(rule)
    }
}

impl From<AllocError> for Stop {
    ghost from_gives = { λ _ stop. stop ≡ Memory };

    fn from(_: AllocError) -> Stop {
        Stop::Memory
    }
}

impl<T: Drop> From<AllocFailed<T>> for Stop {
    ghost from_gives = { λ _ stop. stop ≡ Memory };

    fn from(_: AllocFailed<T>) -> Stop {
        Stop::Memory
    }
}
