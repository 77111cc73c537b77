//! The widest column of a box.
ghost use Rattle.std.specs.Prelude.{◌≡◌, ◌<◌, ◌≤◌, ◌-ℤ◌, ◌≤ℤ◌, ◌<ℤ◌, length, All, MatchOption, option_map};
ghost use Rattle.bl_limits.specs.declared.TheConstants.{MAX_COLUMNS, MAX_NUMBER};
ghost use Rattle.bl_whole.specs.Within.{IsWithin, AreWithin};
ghost use Rattle.bl_terms.specs.Points.{IsArea, IsOnePoint, Fixes};
ghost use Rattle.bl_terms.specs.Trees.{CanSplit};
ghost use Rattle.bl_place.specs.Widest.{IsWider};

use crate::place::Place;

/// How much further the one side of a range is than the other.
fn width(lo: i64, hi: i64) -> i64
    requires low { IsWithin MAX_NUMBER lo }
    requires high { IsWithin MAX_NUMBER hi }
    ensures { result ≡ hi -ℤ lo }
{
    hi - lo
}

/// The number in the middle of a range, the lower one of two.
fn middle(lo: i64, hi: i64) -> i64
    requires low { IsWithin MAX_NUMBER lo }
    requires high { IsWithin MAX_NUMBER hi }
    requires order { lo <ℤ hi }
    ensures least { lo ≤ℤ result }
    ensures below { result <ℤ hi }
{
    let half = (hi - lo) / 2;
    lo + half
}

/// The place of a column, and how wide its range is.
#[derive(Clone, Copy, Debug)]
pub(crate) struct Wide {
    pub(crate) place: Place,
    pub(crate) width: i64,
}

/// The best so far, or the middle of a further column that is wider.
fn wider(best: Option<Wide>, column: u32, lo: i64, hi: i64) -> Option<Wide>
    requires low { IsWithin MAX_NUMBER lo }
    requires high { IsWithin MAX_NUMBER hi }
    requires order { lo ≤ℤ hi }
    ensures { IsWider best column lo hi result }
{
    if lo == hi {
        return best;
    }
    let width = width(lo, hi);
    match best {
        Some(widest) if widest.width >= width => best,
        _ => {
            let at = middle(lo, hi);
            let place = Place { column, at };
            Some(Wide { place, width })
        }
    }
}

fn place_of(best: Option<Wide>) -> Option<Place>
    ensures { result ≡ option_map (λ w. w.place) best }
{
    match best {
        Some(widest) => Some(widest.place),
        None => None,
    }
}

/// The middle of the first among the widest columns, none where the box has but one point.
pub fn widest(lo: &[i64], hi: &[i64]) -> Option<Place>
    requires area { IsArea (record { lo = lo.now; hi = hi.now }) }
    requires few { length lo.now ≤ MAX_COLUMNS }
    requires low { AreWithin MAX_NUMBER lo.now }
    requires high { AreWithin MAX_NUMBER hi.now }
    ensures { MatchOption result (IsOnePoint (record { lo = lo.now; hi = hi.now }))
        (λ place. CanSplit (record { lo = lo.now; hi = hi.now }) place.column place.at) }
{
    let mut best = None;
    for j in 0..lo.len() {
        best = wider(best, j as u32, lo[j], hi[j]);
    }
    place_of(best)
}

/// The middle of the first among the widest of these columns, none where the box fixes them.
pub fn widest_among(lo: &[i64], hi: &[i64], columns: &[u32]) -> Option<Place>
    requires area { IsArea (record { lo = lo.now; hi = hi.now }) }
    requires columns { All (λ k. k < length lo.now) columns.now }
    requires low { AreWithin MAX_NUMBER lo.now }
    requires high { AreWithin MAX_NUMBER hi.now }
    ensures { MatchOption result (Fixes (record { lo = lo.now; hi = hi.now }) columns.now)
        (λ place. CanSplit (record { lo = lo.now; hi = hi.now }) place.column place.at) }
{
    let mut best = None;
    for j in 0..columns.len() {
        let column = columns[j];
        let k = column as usize;
        best = wider(best, column, lo[k], hi[k]);
    }
    place_of(best)
}
