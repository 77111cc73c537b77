//! The law of the replay. The function does nothing: its contract is the law.
ghost use Rattle.bl_tableau.specs.Solutions.{ReplayLaw};

/// The rational values that solve every row of a problem's opening dictionary are those that solve every row of the
/// dictionary after any narrow pivots.
pub fn replay_law()
    ensures { ReplayLaw }
{}
