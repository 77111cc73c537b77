//! Laws of incumbents and closed leaves.
ghost use Rattle.bl_leaf_terms.specs.Incumbents.{IncumbentLaw};
ghost use Rattle.bl_leaf_terms.specs.Leaves.{BoundedLaw, LeafLaw};
ghost use Rattle.bl_leaf_terms.specs.Nodes.{ValueRowLaw};

/// With a true entry of its link, a point is bilevel feasible exactly where it meets the rows at no more than the
/// entry's cost.
pub fn incumbent_law()
    ensures { IncumbentLaw }
{}

/// In a box that fixes the linking columns, every bilevel feasible point meets the value row.
pub fn value_row_law()
    ensures { ValueRowLaw }
{}

/// A bound over rows that are valid on a box closes it.
pub fn bounded_law()
    ensures { BoundedLaw }
{}

/// What shows a leaf closes its box.
pub fn leaf_law()
    ensures { LeafLaw }
{}
