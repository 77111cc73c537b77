//! Facts on worked examples, by which the definitions can be tried. Each function does nothing: its contract is the
//! facts.
ghost use Rattle.bl_simplex.specs.Facts.{WorkedFractions, WorkedPivots};

/// Divisors, multiples and the arithmetic on a few fractions.
pub fn worked_fractions()
    ensures { WorkedFractions }
{}

/// The cost row of a worked dictionary, at first and after each of two pivots.
pub fn worked_pivots()
    ensures { WorkedPivots }
{}
