//! Laws over MPS texts that are read and written.
#![tactic(auto)]

ghost use Rattle.bl_mps_laws.specs.ReadsBack.{ReadsBack};

/// The canonical text of what a text says, says the same, unless it is longer than a text may be.
pub fn reads_back()
    ensures { ReadsBack }
{}
