//! The answers of a relaxation.
use bl_bound::Proof;
use bl_licence::Why;
use bl_raw::Listed;

/// What a relaxation finds.
#[derive(Debug, Drop)]
pub enum Relaxed {
    /// No point of the box meets the rows below the cutoff.
    Closed(Proof),
    /// A point of the box that meets the rows and costs less than the cutoff.
    Whole(Listed<i64>),
    /// A licence to split the box.
    Stuck(Why),
}
