//! The rules of the MPS profile, and where a text breaks one.

/// A rule that a text breaks.
#[derive(Clone, Copy, Debug, PartialEq, Eq)]
pub enum MpsRule {
    /// A section that is unknown, repeated or out of order, or a data line where none may stand.
    BadSection,
    /// A wrong number of fields, an unknown kind, or an unknown marker word.
    BadFields,
    /// An unknown word for the leader's sense, or a second one.
    BadObjSense,
    /// A row that is there already.
    DuplicateRow,
    /// A row or a column above the limits.
    TooMany,
    /// A column that ended earlier.
    DuplicateColumn,
    /// A row that isn't there.
    UnknownRow,
    /// A column that isn't there.
    UnknownColumn,
    /// A field that isn't a number.
    BadNumber,
    /// A number that isn't whole.
    NotWhole,
    /// A number above its limit.
    TooLarge,
    /// A row that stands twice for a column, under RHS or under RANGES.
    DuplicateEntry,
    /// A right-hand side of the objective other than 0.
    ObjectiveConstant,
    /// The text ends without ENDATA.
    NoEnd,
    /// The text has too many bytes.
    TooLong,
    /// No row of kind N.
    NoObjective,
    /// A column that isn't integer.
    Continuous,
    /// A column without a bound on one side.
    Unbounded,
    /// A negative upper bound on a column whose lower bound no line sets.
    NegativeUpper,
    /// A lower bound above the upper one.
    EmptyBounds,
}

/// The first rule that a text breaks. Lines count from 1; the line is 0 where the fault is of the whole text. The
/// column counts from 0 in the order of the text, and is 0 where the fault isn't one column's.
#[derive(Clone, Copy, Debug, PartialEq, Eq)]
pub struct MpsFault {
    pub rule: MpsRule,
    pub line: u64,
    pub column: u32,
}
