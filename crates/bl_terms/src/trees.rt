//! Laws of trees that split a box.

ghost use Rattle.bl_terms.specs.Trees.{CoversOrFails, EachPointInOneLeaf, LeavesAreParts, LeavesAtMostPoints};

/// Each point of the box lies in exactly one box of a leaf.
pub fn each_point_in_one_leaf<S, L>()
    ensures { EachPointInOneLeaf S L }
{}

/// Each box of a leaf has a point, and lies in the box.
pub fn leaves_are_parts<S, L>()
    ensures { LeavesAreParts S L }
{}

/// A tree has at most as many leaves as its box has points.
pub fn leaves_at_most_points<S, L>()
    ensures { LeavesAtMostPoints S L }
{}

/// Where tests decide what nodes show, a list of nodes is a tree or fails first at one place.
pub fn covers_or_fails<S, L>()
    ensures { CoversOrFails S L }
{}
