//! Which pivots are legal steps of the dual simplex method.
ghost use Rattle.std.specs.Prelude.{◌≡◌, ◌≢◌, ◌↔◌, ℕ, ◌<◌, ◌⊎◌, pos, ◌<ℤ◌, length, IsTrue, IsSome, slice_index};
ghost use Rattle.bl_simplex.specs.Fractions.{quotient_of};
ghost use Rattle.bl_simplex.specs.Rationals.{fraction_at};
ghost use Rattle.bl_simplex.specs.LegalPivots.{ratio_of, IsCandidate, WinsRatioTest, LosesRatioTest, IsEntering};

use bl_frac::{Frac, compare, div, is_negative};
use std::cmp::Ordering;

/// Whether a column with this label and ratio goes before another, by the ratio test and Bland's rule.
pub fn wins_ratio_test(label: u32, other_label: u32, ratio: Frac, other: Frac) -> bool
    ensures { IsTrue result ↔ WinsRatioTest label other_label ratio other }
{
    match compare(ratio, other) {
        Ordering::Less => true,
        Ordering::Equal => label < other_label,
        Ordering::Greater => false,
    }
}

fn loses_ratio_test(
    costs: &[Frac],
    entries: &[Frac],
    labels: &[u32],
    column: usize,
    least: Frac,
    j: usize,
) -> bool
    requires costs { length costs.now ≡ length entries.now }
    requires labels { length labels.now ≡ length entries.now }
    requires column_in { column < length entries.now }
    requires candidate { IsCandidate (length entries.now) (fraction_at entries.now) j }
    ensures { IsTrue result ↔ LosesRatioTest (slice_index labels.now) column j least
        (ratio_of (fraction_at costs.now) (fraction_at entries.now) j) }
{
    match div(costs[j], entries[j]) {
        Ok(ratio) => j == column || wins_ratio_test(labels[column], labels[j], least, ratio),
        Err(_) => false,
    }
}

fn is_least_ratio(
    costs: &[Frac],
    entries: &[Frac],
    labels: &[u32],
    column: usize,
    least: Frac,
) -> bool
    requires costs { length costs.now ≡ length entries.now }
    requires labels { length labels.now ≡ length entries.now }
    requires column_in { column < length entries.now }
    ensures { IsTrue result ↔ ((j : ℕ) → IsCandidate (length entries.now) (fraction_at entries.now) j →
        LosesRatioTest (slice_index labels.now) column j least
        (ratio_of (fraction_at costs.now) (fraction_at entries.now) j)) }
{
    for j in 0..entries.len() {
        if is_negative(entries[j]) && !loses_ratio_test(costs, entries, labels, column, least, j) {
            return false;
        }
    }
    true
}

fn has_ratio(cost: Frac, entry: Frac) -> bool
    requires { entry.num ≢ pos 0 }
    ensures { IsTrue result ↔ IsSome (quotient_of cost entry) }
{
    div(cost, entry).is_ok()
}

fn has_ratios_before(costs: &[Frac], entries: &[Frac], column: usize) -> bool
    requires costs { length costs.now ≡ length entries.now }
    requires column_in { column < length entries.now }
    ensures { IsTrue result ↔ ((j : ℕ) → IsCandidate (length entries.now) (fraction_at entries.now) j → j < column →
        IsSome (ratio_of (fraction_at costs.now) (fraction_at entries.now) j)) }
{
    for j in 0..column {
        if is_negative(entries[j]) && !has_ratio(costs[j], entries[j]) {
            return false;
        }
    }
    true
}

/// Whether the row of these entries leaves for this column, which is a candidate.
pub(crate) fn is_entering(costs: &[Frac], entries: &[Frac], labels: &[u32], column: usize) -> bool
    requires costs { length costs.now ≡ length entries.now }
    requires labels { length labels.now ≡ length entries.now }
    requires candidate { IsCandidate (length entries.now) (fraction_at entries.now) column }
    ensures { IsTrue result ↔ IsEntering (length entries.now) (fraction_at costs.now) (fraction_at entries.now)
        (slice_index labels.now) column }
{
    match div(costs[column], entries[column]) {
        Ok(least) => is_least_ratio(costs, entries, labels, column, least),
        Err(_) => has_ratios_before(costs, entries, column),
    }
}
