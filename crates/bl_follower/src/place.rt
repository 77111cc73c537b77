//! Where a part of the follower's box is split.
ghost use Rattle.bl_terms.specs.Trees.{CanSplit};
ghost use Rattle.bl_fproof.specs.Stacks.{IsPart};

use bl_fproof::{FollowerRows, Part};
use bl_licence::Why;
use bl_place::{Place, fractional};

/// Where a part is split by its licence: at its fractional point, else at the middle of its widest column.
pub(crate) fn place_by(rows: &FollowerRows, part: &Part, why: &Why, widest: Place) -> Place
    requires part { IsPart rows.now part.now }
    requires can_split { CanSplit part.now widest.column widest.at }
    ensures { CanSplit part.now result.column result.at }
{
    let Why::Fraction(distances) = why else {
        return widest;
    };
    let distances = distances.as_slice();
    match fractional(rows.cost(), part.lo(), part.hi(), distances, &[]) {
        Some(place) => place,
        None => widest,
    }
}
