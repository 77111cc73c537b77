//! Why a text isn't a whole number.

/// Why a text isn't read as a whole number.
#[derive(Clone, Copy, Debug, PartialEq, Eq)]
pub enum NumFault {
    /// The bytes aren't a number.
    NotNumber,
    /// The number isn't whole, whatever its size.
    NotWhole,
    /// The number is whole, and its magnitude is above `MAX_WHOLE`.
    TooLarge {
        /// Whether it is below 0.
        negative: bool,
    },
}
