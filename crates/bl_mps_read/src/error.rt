//! Why a text isn't read.
ghost use Rattle.std.specs.Prelude.{◌≡◌};
ghost use Rattle.bl_mps_terms.specs.Faults.{at_line};
ghost use Rattle.bl_mps_read.specs.declared.error.MpsError.TheVariants.{Fault, Memory};

use bl_mps_terms::{MpsFault, MpsRule};
use std::alloc::AllocError;

/// Why a text isn't read.
#[derive(Clone, Copy, Debug)]
pub enum MpsError {
    /// The text breaks a rule, first this one.
    Fault(MpsFault),
    Memory,
}

impl From<AllocError> for MpsError {
    ghost from_gives = { λ _ error. error ≡ Memory };

    fn from(_: AllocError) -> MpsError {
        MpsError::Memory
    }
}

/// The fault of a line, or of the whole text at line 0.
pub fn fault_at(line: u64, rule: MpsRule) -> MpsError
    ensures { result ≡ Fault (at_line line rule) }
{
    MpsError::Fault(MpsFault {
        rule,
        line,
        column: 0,
    })
}
