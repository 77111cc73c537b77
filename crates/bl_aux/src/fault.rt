//! Why an auxiliary text is refused.
ghost use Rattle.std.specs.Prelude.{◌≡◌};
ghost use Rattle.bl_aux.specs.declared.fault.AuxError.TheVariants.{Memory};

use std::alloc::AllocError;

/// A rule of the auxiliary text. At a line they are tested in this order; `CountDiffers` and `TooLong` are of the
/// whole.
#[derive(Clone, Copy, Debug, PartialEq, Eq)]
pub enum AuxRule {
    /// The first field is `IC` or `IB`, or begins with `@`.
    Unsupported,
    /// The line hasn't two fields, or its key is unknown.
    BadKey,
    /// The second field isn't a number.
    BadNumber,
    /// The number isn't whole.
    NotWhole,
    /// The number's magnitude is above what is read at all, or that of a cost above its limit.
    TooLarge,
    /// The first key isn't `N`, or the second isn't `M`.
    OutOfOrder,
    /// A later `N` or `M`, a second `OS`, or an index that was given before for the same key.
    Repeated,
    /// A count or an index out of range.
    BadIndex,
    /// A sense other than 1 and -1.
    BadSense,
    /// A count isn't given, or isn't the count of the lines that it announces.
    CountDiffers,
    /// The text has more than `MAX_TEXT_BYTES` bytes.
    TooLong,
}

/// The first rule that a text breaks, and the line, counted from 1. The line is 0 for a rule of the whole.
#[derive(Clone, Copy, Debug, PartialEq, Eq)]
pub struct AuxFault {
    pub rule: AuxRule,
    pub line: u64,
}

/// Why no auxiliary text is read.
#[derive(Debug, Drop)]
pub enum AuxError {
    Fault(AuxFault),
    Memory,
}

impl From<AllocError> for AuxError {
    ghost from_gives = { λ _ e. e ≡ Memory };

    fn from(_error: AllocError) -> AuxError {
        AuxError::Memory
    }
}
