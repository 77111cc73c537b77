//! What a dictionary says by label: its basic values, and the multipliers of its rows.
ghost use Rattle.std.specs.Prelude.{◌≡◌, ◌↔◌, ℕ, ◌+◌, ◌<◌, ◌≤◌, ◌^◌, false, IsTrue, IfOk, IfSome, length};
ghost use Rattle.bl_simplex.specs.Dictionaries.{columns, cost_row};
ghost use Rattle.bl_simplex.specs.Closing.{labelled, row_multiplier as row_multiplier_of};
ghost use Rattle.bl_simplex.specs.Closing.{cost_multiplier as cost_multiplier_of, basic_value as basic_value_of};
ghost use Rattle.bl_simplex.specs.Licences.{IsFeasible};
ghost use Rattle.bl_tableau.specs.Runs.{current};
ghost use Rattle.bl_licence.specs.Steps.{IsListOf};

use bl_frac::{Frac, is_negative, negation, whole};
use bl_tableau::Tableau;
use std::alloc::{AllocError, Global};

/// The column with this label.
fn column_labelled(tableau: &Tableau<'_, '_>, label: u32) -> Option<u32>
    requires { tableau.now.spent ≡ false }
    ensures value { result ≡ labelled (columns tableau.now.problem) (current tableau.now).column_label label }
    ensures found { IfSome result (λ j. j < columns tableau.now.problem) }
{
    let mut left = tableau.columns();
    while left > 0 {
        left -= 1;
        if tableau.column_label(left) == label {
            return Some(left);
        }
    }
    None
}

/// The row with this label, the cost row aside.
fn row_labelled(tableau: &Tableau<'_, '_>, label: u32) -> Option<u32>
    requires { tableau.now.spent ≡ false }
    ensures value { result ≡ labelled (cost_row tableau.now.problem) (current tableau.now).row_label label }
    ensures found { IfSome result (λ i. i < cost_row tableau.now.problem) }
{
    let mut left = tableau.cost_row();
    while left > 0 {
        left -= 1;
        if tableau.row_label(left) == label {
            return Some(left);
        }
    }
    None
}

/// The multiplier of row `i` where the dictionary's row `row` closes.
fn row_multiplier(tableau: &Tableau<'_, '_>, row: u32, i: u32) -> Frac
    requires not_spent { tableau.now.spent ≡ false }
    requires row_in { row < cost_row tableau.now.problem }
    requires i_in { i < length tableau.now.problem.rows }
    requires i_small { i < 2 ^ 31 }
    ensures { result ≡ row_multiplier_of tableau.now.problem (current tableau.now) row i }
{
    let slack = tableau.columns() + i;
    match column_labelled(tableau, slack) {
        Some(j) => tableau.entry(row, j),
        None => whole(i64::from(tableau.row_label(row) == slack)),
    }
}

/// How many rows the problem has.
fn problem_rows(tableau: &Tableau<'_, '_>) -> u32
    ensures value { result ≡ length tableau.now.problem.rows }
    ensures few { result < 2 ^ 31 }
{
    tableau.cost_row() - tableau.columns()
}

/// The multipliers that a closing row gives.
pub fn row_multipliers(
    alloc: Global,
    tableau: &Tableau<'_, '_>,
    row: u32,
) -> Result<Vec<Frac>, AllocError>
    requires not_spent { tableau.now.spent ≡ false }
    requires row_in { row < cost_row tableau.now.problem }
    ensures { IfOk result (λ v. IsListOf (length tableau.now.problem.rows)
        (row_multiplier_of tableau.now.problem (current tableau.now) row) v.items) }
{
    let rows = problem_rows(tableau);
    let mut multipliers = Vec::with_capacity(alloc, rows as usize)?;
    for i in 0..rows {
        let multiplier = row_multiplier(tableau, row, i);
        multipliers.push(multiplier)?;
    }
    Ok(multipliers)
}

/// The multiplier of row `i` where the cost row closes.
fn cost_multiplier(tableau: &Tableau<'_, '_>, i: u32) -> Frac
    requires not_spent { tableau.now.spent ≡ false }
    requires i_in { i < length tableau.now.problem.rows }
    requires i_small { i < 2 ^ 31 }
    ensures { result ≡ cost_multiplier_of tableau.now.problem (current tableau.now) i }
{
    match column_labelled(tableau, tableau.columns() + i) {
        Some(j) => negation(tableau.entry(tableau.cost_row(), j)),
        None => whole(0),
    }
}

/// The multipliers that the cost row gives.
pub fn cost_multipliers(alloc: Global, tableau: &Tableau<'_, '_>) -> Result<Vec<Frac>, AllocError>
    requires { tableau.now.spent ≡ false }
    ensures { IfOk result (λ v. IsListOf (length tableau.now.problem.rows)
        (cost_multiplier_of tableau.now.problem (current tableau.now)) v.items) }
{
    let rows = problem_rows(tableau);
    let mut multipliers = Vec::with_capacity(alloc, rows as usize)?;
    for i in 0..rows {
        let multiplier = cost_multiplier(tableau, i);
        multipliers.push(multiplier)?;
    }
    Ok(multipliers)
}

/// The value of the variable with this label where the variables that label the columns are 0.
fn basic_value(tableau: &Tableau<'_, '_>, label: u32) -> Frac
    requires { tableau.now.spent ≡ false }
    ensures { result ≡ basic_value_of tableau.now.problem (current tableau.now) label }
{
    match row_labelled(tableau, label) {
        Some(i) => tableau.right(i),
        None => whole(0),
    }
}

/// The basic value of each column.
pub fn basic_values(alloc: Global, tableau: &Tableau<'_, '_>) -> Result<Vec<Frac>, AllocError>
    requires { tableau.now.spent ≡ false }
    ensures { IfOk result (λ v. IsListOf (columns tableau.now.problem)
        (basic_value_of tableau.now.problem (current tableau.now)) v.items) }
{
    let columns = tableau.columns();
    let mut values = Vec::with_capacity(alloc, columns as usize)?;
    for j in 0..columns {
        let value = basic_value(tableau, j);
        values.push(value)?;
    }
    Ok(values)
}

/// Whether no right side but the cost row's is negative.
pub fn is_feasible(tableau: &Tableau<'_, '_>) -> bool
    requires { tableau.now.spent ≡ false }
    ensures { IsTrue result ↔ IsFeasible tableau.now.problem (current tableau.now) }
{
    for i in 0..tableau.cost_row() {
        let right = tableau.right(i);
        if is_negative(right) {
            return false;
        }
    }
    true
}
