//! The next pivot of the dual simplex method.
ghost use Rattle.std.specs.Prelude.{◌≡◌, ◌<◌, ◌↔◌, ◌⊎◌, ℕ, false, pos, ◌<ℤ◌, MatchOption, IsTrue, IfSome};
ghost use Rattle.bl_simplex.specs.Dictionaries.{columns, cost_row};
ghost use Rattle.bl_simplex.specs.Closing.{Closes};
ghost use Rattle.bl_simplex.specs.LegalPivots.{ratio_of, IsCandidate, IsEntering, WinsRatioTest};
ghost use Rattle.bl_simplex.specs.Licences.{IsFeasible};
ghost use Rattle.bl_tableau.specs.Runs.{current};
ghost use Rattle.bl_licence.specs.Steps.{MayPivot};
ghost use Rattle.bl_relax.specs.Choices.{AreDistinct, IsRatioOf, IsWinner, HasNoCandidate};

use crate::distance::squared_distance;
use bl_frac::{Frac, div, is_negative};
use bl_licence::closes;
use bl_tableau::{Tableau, wins_ratio_test};

/// A column with a negative entry, and what the ratio test asks of it.
#[derive(Clone, Copy, Debug)]
pub(crate) struct Candidate {
    pub(crate) column: u32,
    pub(crate) label: u32,
    pub(crate) ratio: Frac,
}

/// The leaving row: of those with a negative right side the one that is farthest from being met.
fn leaving_row(tableau: &Tableau<'_, '_>) -> Option<u32>
    requires { tableau.now.spent ≡ false }
    ensures { MatchOption result (IsFeasible tableau.now.problem (current tableau.now))
        (λ r. (r < cost_row tableau.now.problem)
        × (((current tableau.now).place r (columns tableau.now.problem)).num <ℤ pos 0)) }
{
    let mut row = None;
    let mut greatest = 0;
    for i in 0..tableau.cost_row() {
        let right = tableau.right(i);
        if is_negative(right) {
            let distance = squared_distance(tableau, i);
            if row.is_none() || distance > greatest {
                greatest = distance;
                row = Some(i);
            }
        }
    }
    row
}

/// A column with a negative entry as a candidate, or none where its ratio passes 128 bits.
fn candidate_at(tableau: &Tableau<'_, '_>, row: u32, column: u32) -> Option<Candidate>
    requires not_spent { tableau.now.spent ≡ false }
    requires row_in { row < cost_row tableau.now.problem }
    requires column_in { column < columns tableau.now.problem }
    requires negative { ((current tableau.now).place row column).num <ℤ pos 0 }
    ensures { MatchOption result
        (ratio_of ((current tableau.now).place (cost_row tableau.now.problem)) ((current tableau.now).place row) column
        ≡ None)
        (IsRatioOf ((current tableau.now).place (cost_row tableau.now.problem)) ((current tableau.now).place row)
        (current tableau.now).column_label column) }
{
    let cost = tableau.entry(tableau.cost_row(), column);
    let entry = tableau.entry(row, column);
    match div(cost, entry) {
        Ok(ratio) => Some(Candidate {
            column,
            label: tableau.column_label(column),
            ratio,
        }),
        Err(_) => None,
    }
}

/// The candidate that goes before the other.
fn winner(best: Option<Candidate>, next: Candidate) -> Candidate
    ensures { IsWinner best next result }
{
    match best {
        Some(best) => {
            if wins_ratio_test(next.label, best.label, next.ratio, best.ratio) {
                next
            } else {
                best
            }
        }
        None => next,
    }
}

/// The entering column of a row, by the dual ratio test and Bland's rule.
fn entering_column(tableau: &Tableau<'_, '_>, row: u32) -> Option<u32>
    requires not_spent { tableau.now.spent ≡ false }
    requires row_in { row < cost_row tableau.now.problem }
    requires labels { AreDistinct (columns tableau.now.problem) (current tableau.now).column_label }
    ensures { MatchOption result (HasNoCandidate (columns tableau.now.problem) ((current tableau.now).place row))
        (λ c. IsCandidate (columns tableau.now.problem) ((current tableau.now).place row) c
        × IsEntering (columns tableau.now.problem) ((current tableau.now).place (cost_row tableau.now.problem))
        ((current tableau.now).place row) (current tableau.now).column_label c) }
{
    let mut best = None;
    for j in 0..tableau.columns() {
        let entry = tableau.entry(row, j);
        if is_negative(entry) {
            let Some(next) = candidate_at(tableau, row, j) else {
                return Some(j);
            };
            best = Some(winner(best, next));
        }
    }
    match best {
        Some(best) => Some(best.column),
        None => None,
    }
}

/// The pivot that is to be taken: none exactly where the dictionary closes the box, or no right side is negative but
/// perhaps that of the cost row.
pub(crate) fn next_pivot(tableau: &Tableau<'_, '_>, cutoff: Option<i64>) -> Option<(u32, u32)>
    requires not_spent { tableau.now.spent ≡ false }
    requires labels { AreDistinct (columns tableau.now.problem) (current tableau.now).column_label }
    ensures { MatchOption result
        (Closes tableau.now.problem cutoff (current tableau.now)
        ⊎ IsFeasible tableau.now.problem (current tableau.now))
        (MayPivot tableau.now.problem cutoff (current tableau.now)) }
{
    if closes(tableau, cutoff) {
        return None;
    }
    let row = leaving_row(tableau)?;
    let column = entering_column(tableau, row)?;
    Some((row, column))
}
