//! What a line of a certificate says.

use bl_raw::Listed;

/// A line of a certificate. A comment gives its spelling; `..` stands for more of the same.
///
/// Numbers are as they stand in the text: a type says only that they are of 64 bits.
#[derive(Debug, Drop)]
pub enum CertLine {
    /// `mibs-certificate NUMBER`
    Version {
        number: i64,
    },
    /// `sense max`, or `sense min`
    Sense {
        maximise: bool,
    },
    /// `states optimal VALUE`
    StatesOptimal {
        value: i64,
    },
    /// `states infeasible`
    StatesInfeasible,
    /// `point z..`, a number for each column
    Point {
        values: Listed<i64>,
    },
    /// `entries COUNT`
    Entries {
        count: i64,
    },
    /// `entry l..`, a number for each linking column
    EntryHead {
        link: Listed<i64>,
    },
    /// `best VALUE y..`, the follower's least cost and a response of that cost
    Best {
        value: i64,
        response: Listed<i64>,
    },
    /// `none`, for a link without a response
    NoAnswer,
    /// `split COLUMN AT`
    Split {
        column: i64,
        at: i64,
    },
    /// `proof DEN i:m..`, a denominator, and multipliers of rows
    Proof {
        den: i64,
        mult: Listed<(i64, i64)>,
    },
    /// `cuts COUNT`
    CutCount {
        count: i64,
    },
    /// `cut`
    CutHead,
    /// `box lo hi lo hi ..`, both sides for each column
    Area {
        sides: Listed<(i64, i64)>,
    },
    /// `tight t..`
    TightList {
        items: Listed<TightItem>,
    },
    /// `inverse DEN`
    Inverse {
        den: i64,
    },
    /// `unit i:m..`, for one column: places among the tight items, and their numbers
    Unit {
        pairs: Listed<(i64, i64)>,
    },
    /// `at z..`, a number for each column
    At {
        values: Listed<i64>,
    },
    /// `response y..`, a number for each follower column
    Response {
        values: Listed<i64>,
    },
    /// `tree`
    TreeHead,
    /// `close DEN V COUNT c.. i:m..`, where V is `v` with the value row and `-` without it, COUNT is the count of the
    /// cuts that follow, and the pairs are multipliers of rows
    Close {
        den: i64,
        value_row: bool,
        count: i64,
        cuts: Listed<i64>,
        mult: Listed<(i64, i64)>,
    },
    /// `end`
    End,
}

/// A row that holds with equality, by its place.
#[derive(Clone, Copy, Debug, PartialEq, Eq)]
pub enum TightItem {
    /// `r` and the place: a row of the model.
    Row(i64),
    /// `u` and the place: the upper side of a column.
    Upper(i64),
    /// `l` and the place: the lower side of a column.
    Lower(i64),
    /// `c` and the place: an earlier cut.
    Cut(i64),
}
