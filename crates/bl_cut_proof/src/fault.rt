//! Why a cut isn't shown.
ghost use Rattle.std.specs.Prelude.{◌≡◌};
ghost use Rattle.bl_cut_proof.specs.declared.fault.CutFault.TheVariants.{Memory};

use std::alloc::AllocError;

/// What of a cut's parts fails first.
#[derive(Debug, Drop)]
pub enum CutFault {
    /// An item that isn't there, or isn't in order; an earlier cut of another model, or of a box that doesn't contain
    /// the cut's; two items that name one cut; a number out of its limits.
    Size,
    /// The multipliers don't combine the rows to each column.
    Inverse,
    /// The point isn't one of the model's box, or a row doesn't hold there with equality.
    Tight,
    /// The response isn't one to the point's link, or costs the follower no less.
    Response,
    Memory,
}

impl From<AllocError> for CutFault {
    ghost from_gives = { λ _ e. e ≡ Memory };

    fn from(_error: AllocError) -> CutFault {
        CutFault::Memory
    }
}
