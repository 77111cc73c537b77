//! What the elimination gives. The function does nothing: its contract is the law.
ghost use Rattle.bl_elimination.specs.Inverses.{EliminationLaw};

/// The kept rows come in their order, as many as there are columns, and the unit lists are the inverse of their
/// coefficients, with numbers within the limit of proof numbers.
pub fn elimination_law()
    ensures { EliminationLaw }
{}
