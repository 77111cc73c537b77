//! Laws of problems with and without cuts.
ghost use Rattle.bl_tree.specs.Laws.{PlainProofCloses};

/// A proof of a plain problem is one of a leaf's problem without cuts.
pub fn plain_proof_closes()
    ensures { PlainProofCloses }
{}
