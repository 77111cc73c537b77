//! How far a row is from being met, by which the leaving row is picked. No clause rests on it.
ghost use Rattle.std.specs.Prelude.{◌≡◌, ◌<◌, false};
ghost use Rattle.bl_simplex.specs.Dictionaries.{cost_row};

use bl_frac::{Frac, parts};
use bl_tableau::Tableau;

/// How many parts 1 has where a fraction is rounded.
const UNIT: u128 = 1 << 16;

/// The magnitude of a fraction in parts of [`UNIT`], rounded down.
fn magnitude(x: Frac) -> u128 {
    let (num, den) = parts(x);
    num.unsigned_abs().saturating_mul(UNIT) / den.unsigned_abs()
}

/// The square of the distance from the point of the dictionary to the row's boundary, roughly: the square of the
/// right side over that of the Euclidean length of the row, whose own variable counts 1.
pub(crate) fn squared_distance(tableau: &Tableau<'_, '_>, row: u32) -> u128
    requires not_spent { tableau.now.spent ≡ false }
    requires row_in { row < cost_row tableau.now.problem }
{
    let mut length = UNIT * UNIT;
    for j in 0..tableau.columns() {
        let entry = magnitude(tableau.entry(row, j));
        length = length.saturating_add(entry.saturating_mul(entry));
    }
    let right = magnitude(tableau.right(row));
    right.saturating_mul(right).saturating_mul(UNIT) / length.max(1)
}
