//! Laws of points and boxes.

ghost use Rattle.bl_terms.specs.Points.{PartHasNoOtherPoints, ZerosAskNothing};

/// A point of a box that lies within another is a point of the other.
pub fn part_has_no_other_points()
    ensures { PartHasNoOtherPoints }
{}

/// Every point meets the row of zeros.
pub fn zeros_ask_nothing()
    ensures { ZerosAskNothing }
{}
