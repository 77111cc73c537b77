//! Whether a dictionary closes the box.
ghost use Rattle.std.specs.Prelude.{◌≡◌, ◌↔◌, ℕ, ◌<◌, pos, ◌-ℤ◌, ◌<ℤ◌, false, IsTrue, IsSome, MatchOption};
ghost use Rattle.std.specs.Prelude.{unsigned_abs, ◌^◌};
ghost use Rattle.bl_simplex.specs.Fractions.{whole_fraction};
ghost use Rattle.bl_simplex.specs.Dictionaries.{columns, cost_row};
ghost use Rattle.bl_simplex.specs.Closing.{ClosesByRow, ClosesByCost, Closes, IsFirstClosingRow};
ghost use Rattle.bl_tableau.specs.Runs.{current};
ghost use Rattle.bl_licence.specs.Steps.{IsAbove};

use bl_frac::{Frac, compare, is_negative, parts, reduced};
use bl_tableau::Tableau;
use std::cmp::Ordering;

/// Whether a row has a negative right side and no negative entry.
fn row_closes(tableau: &Tableau<'_, '_>, row: u32) -> bool
    requires not_spent { tableau.now.spent ≡ false }
    requires row_in { row < cost_row tableau.now.problem }
    ensures { IsTrue result ↔ ClosesByRow tableau.now.problem (current tableau.now) row }
{
    let right = tableau.right(row);
    if !is_negative(right) {
        return false;
    }
    for j in 0..tableau.columns() {
        let entry = tableau.entry(row, j);
        if is_negative(entry) {
            return false;
        }
    }
    true
}

/// The first row that closes the box.
pub fn first_closing_row(tableau: &Tableau<'_, '_>) -> Option<u32>
    requires { tableau.now.spent ≡ false }
    ensures { MatchOption result ((r : ℕ) → ¬ ClosesByRow tableau.now.problem (current tableau.now) r)
        (IsFirstClosingRow tableau.now.problem (current tableau.now)) }
{
    for row in 0..tableau.cost_row() {
        if row_closes(tableau, row) {
            return Some(row);
        }
    }
    None
}

/// A whole number as a fraction.
fn fraction_of(number: i128) -> Frac
    requires { unsigned_abs number < 2 ^ 127 }
    ensures { result ≡ whole_fraction number }
{
    reduced(number, 1).unwrap()
}

/// Whether `x` is above `least`.
fn is_above(x: Frac, least: i128) -> bool
    requires { unsigned_abs least < 2 ^ 127 }
    ensures { IsTrue result ↔ IsAbove least x }
{
    let order = compare(fraction_of(least), x);
    matches!(order, Ordering::Less)
}

/// Whether the right side of the cost row is above the cutoff less 1.
pub fn cost_closes(tableau: &Tableau<'_, '_>, cutoff: Option<i64>) -> bool
    requires { tableau.now.spent ≡ false }
    ensures { IsTrue result ↔ ClosesByCost tableau.now.problem cutoff (current tableau.now) }
{
    match cutoff {
        Some(cutoff) => {
            let value = tableau.right(tableau.cost_row());
            is_above(value, i128::from(cutoff) - 1)
        }
        None => false,
    }
}

/// Whether the dictionary closes the box, by a row or by the cost row.
pub fn closes(tableau: &Tableau<'_, '_>, cutoff: Option<i64>) -> bool
    requires { tableau.now.spent ≡ false }
    ensures { IsTrue result ↔ Closes tableau.now.problem cutoff (current tableau.now) }
{
    match first_closing_row(tableau) {
        Some(_) => true,
        None => cost_closes(tableau, cutoff),
    }
}
