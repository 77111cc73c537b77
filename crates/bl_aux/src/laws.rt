//! What fixes the meaning of every auxiliary text, as laws over its definitions.
ghost use Rattle.bl_aux.specs.Laws.{ReadsBack, SaysFollowers, TellsOne};

/// Each text says a follower or has a first fault, never both, and one of them at most.
pub fn tells_one()
    ensures { TellsOne }
{}

/// What a text says is a follower of the model.
pub fn says_followers()
    ensures { SaysFollowers }
{}

/// A follower's canonical text says that follower.
pub fn reads_back()
    ensures { ReadsBack }
{}
