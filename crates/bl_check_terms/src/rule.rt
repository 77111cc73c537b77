//! The rules by which a text is refused.

/// A rule of certificates. Where several fail at a line, the first of them in this order is told.
#[derive(Clone, Copy, Debug, PartialEq, Eq)]
pub enum CertRule {
    /// The line isn't of a form that may stand there, or isn't in its one spelling.
    Syntax,
    /// What the line names isn't there, or isn't in its order.
    Place,
    /// The sense is the other one.
    Sense,
    /// The point breaks a row, or has another value.
    Point,
    /// The response breaks a row, or has another cost.
    Best,
    /// The point costs the follower something else than the entry of its link says.
    Follower,
    /// A cut's numbers are too large, or a used cut isn't valid on the cut's box.
    Size,
    /// The tight rows don't combine to the column.
    Inverse,
    /// A tight row doesn't hold with equality.
    Tight,
    /// The response breaks a row, or isn't cheaper.
    Response,
    /// A cited cut isn't valid on the leaf's box, or the entry that the leaf uses says something else.
    Cited,
    /// The multipliers prove too little.
    Proof,
    /// There is a byte behind the last line.
    Tail,
}
