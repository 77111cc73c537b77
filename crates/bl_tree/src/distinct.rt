//! Cuts that differ by box or row.
ghost use Rattle.std.specs.Prelude.{◌≡◌, ◌≢◌, ◌↔◌, ◌<◌, ℕ, length, IsTrue};
ghost use Rattle.bl_cut_terms.specs.NoGoods.{cut_of};
ghost use Rattle.bl_cut.specs.Cuts.{cut_at as cut_at_of};
ghost use Rattle.bl_leaf_terms.specs.Leaves.{AreDistinctCuts};

use crate::problem::cut_at;
use bl_cut::{Cuts, ProvedCut};

/// Whether two cuts have the same row.
fn is_same_row(cut: &ProvedCut, other: &ProvedCut) -> bool
    ensures { IsTrue result ↔ ((cut_of cut.now).row ≡ (cut_of other.now).row) }
{
    cut.right() == other.right() && cut.coef() == other.coef()
}

/// Whether two cuts have the same box and row.
fn is_same_cut(cut: &ProvedCut, other: &ProvedCut) -> bool
    ensures { IsTrue result ↔ (cut_of cut.now ≡ cut_of other.now) }
{
    is_same_row(cut, other) && cut.area().is_same(other.area())
}

/// Whether no cut before the one at a place has its box and row.
fn is_first(cuts: &Cuts, place: u32) -> bool
    requires { place < length cuts.now }
    ensures { IsTrue result
        ↔ ((k : ℕ) → k < place → cut_of (cut_at_of cuts.now k) ≢ cut_of (cut_at_of cuts.now place)) }
{
    let cut = cut_at(cuts, place);
    for k in 0..place {
        if is_same_cut(cut_at(cuts, k), cut) {
            return false;
        }
    }
    true
}

/// Whether no two of the cuts have the same box and row.
pub(crate) fn are_distinct(cuts: &Cuts) -> bool
    ensures { IsTrue result ↔ AreDistinctCuts cuts.now }
{
    for place in 0..cuts.count() {
        if !is_first(cuts, place) {
            return false;
        }
    }
    true
}
