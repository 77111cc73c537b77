//! Laws of follower proofs.

ghost use Rattle.bl_terms.specs.FollowerProofs.{FollowerPoints, FollowerProofLaw};

/// A follower proof implies that the entry is true.
pub fn follower_proof_law()
    ensures { FollowerProofLaw }
{}

/// The points of the follower's problem are the responses.
pub fn follower_points()
    ensures { FollowerPoints }
{}
