//! Why a text isn't accepted.
ghost use Rattle.std.specs.Prelude.{◌≡◌};
ghost use Rattle.bl_check_walk.specs.declared.fail.CheckFail.TheVariants.{Memory};

use bl_check_terms::CertRule;
use std::alloc::{AllocError, AllocFailed};

/// Why a text isn't accepted as a certificate.
#[derive(Clone, Copy, Debug, PartialEq, Eq)]
pub enum CheckFail {
    /// At this line, counted from 1, the text first breaks a rule, and this is the first that it breaks there.
    Refused { line: u64, rule: CertRule },
    Memory,
}

impl From<AllocError> for CheckFail {
    ghost from_gives = { λ _ error. error ≡ Memory };

    fn from(_: AllocError) -> CheckFail {
        CheckFail::Memory
    }
}

impl<T: Drop> From<AllocFailed<T>> for CheckFail {
    ghost from_gives = { λ _ error. error ≡ Memory };

    fn from(_: AllocFailed<T>) -> CheckFail {
        CheckFail::Memory
    }
}
