//! The opening dictionary of a problem.
ghost use Rattle.std.specs.Prelude.{◌≡◌, ℕ, ◌+◌, ◌*◌, ◌^◌, ◌<◌, ◌≤◌, pos, negsuc, ◌*ℤ◌, length, OnOk, IfOk};
ghost use Rattle.std.specs.Prelude.{slice_index, unsigned_abs, if◌then◌else◌};
ghost use Rattle.bl_whole.specs.Within.{IsWithin};
ghost use Rattle.bl_terms.specs.Bounds.{Fits};
ghost use Rattle.bl_simplex.specs.Fractions.{whole_fraction};
ghost use Rattle.bl_simplex.specs.Dictionaries.{columns, opening_number, height_of, width_of};
ghost use Rattle.bl_tableau.specs.Cells.{placed, AreReduced};
ghost use Rattle.bl_tableau.specs.Opening.{Appends, AreStarts};

use bl_bound::Problem;
use bl_frac::{Frac, reduced, whole};
use bl_whole::{dot_product, int64, int128};
use std::alloc::{AllocError, Global};

/// The numbers `from`, `from + 1` and so on, so many of them.
pub(crate) fn numbers(alloc: Global, from: u32, count: u32) -> Result<Vec<u32>, AllocError>
    requires { from + count < 2 ^ 32 }
    ensures size { IfOk result (λ v. length v.items ≡ count) }
    ensures value { IfOk result (λ v. (k : ℕ) → k < count → slice_index v.items k ≡ from + k) }
{
    let mut list = Vec::with_capacity(alloc, count as usize)?;
    for k in 0..count {
        list.push(from + k)?;
    }
    Ok(list)
}

/// A whole number as a fraction.
fn fraction_of(number: i128) -> Frac
    requires { unsigned_abs number < 2 ^ 127 }
    ensures { result ≡ whole_fraction number }
{
    reduced(number, 1).unwrap()
}

/// The number, or its negation where the flag is set.
fn signed(number: i64, turned: bool) -> i64
    requires { IsWithin (2 ^ 36) number }
    ensures { result ≡ number *ℤ (if turned then negsuc 0 else pos 1) }
{
    if turned { -number } else { number }
}

/// Where each column starts: at the end of its range at which it costs least.
fn starts_of(alloc: Global, problem: &Problem<'_>) -> Result<Vec<i64>, AllocError>
    requires { Fits problem.now }
    ensures { IfOk result (λ v. AreStarts problem.now v.items) }
{
    let cost = problem.cost();
    let lo = problem.lo();
    let hi = problem.hi();
    let mut starts = Vec::with_capacity(alloc, cost.len())?;
    for j in 0..cost.len() {
        starts.push(if cost[j] < 0 { hi[j] } else { lo[j] })?;
    }
    Ok(starts)
}

/// Adds the row of a row of the problem.
fn push_row(
    cells: &mut Vec<Frac>,
    problem: &Problem<'_>,
    starts: &[i64],
    i: usize,
) -> Result<(), AllocError>
    requires problem_fits { Fits problem.now }
    requires row_in { i < length problem.now.rows }
    requires starts { AreStarts problem.now starts.now }
    ensures { OnOk result
        (Appends cells.old.items cells.new.items (width_of problem.now) (opening_number problem.now i)) }
{
    let row = &problem.rows()[i];
    let coef = row.coef();
    let cost = problem.cost();
    for j in 0..cost.len() {
        cells.push(whole(signed(coef[j], cost[j] < 0)))?;
    }
    let slack = int128::minus(i128::from(row.rhs()), dot_product(coef, starts));
    cells.push(fraction_of(slack))?;
    Ok(())
}

/// Adds the row of the range of column `k`.
fn push_range(cells: &mut Vec<Frac>, problem: &Problem<'_>, k: usize) -> Result<(), AllocError>
    requires problem_fits { Fits problem.now }
    requires column_in { k < columns problem.now }
    ensures { OnOk result (Appends cells.old.items cells.new.items (width_of problem.now)
        (opening_number problem.now (length problem.now.rows + k))) }
{
    let lo = problem.lo();
    let hi = problem.hi();
    for j in 0..lo.len() {
        cells.push(whole(i64::from(j == k)))?;
    }
    cells.push(whole(int64::minus(hi[k], lo[k])))?;
    Ok(())
}

/// Adds the cost row.
fn push_cost(cells: &mut Vec<Frac>, problem: &Problem<'_>, starts: &[i64]) -> Result<(), AllocError>
    requires problem_fits { Fits problem.now }
    requires starts { AreStarts problem.now starts.now }
    ensures { OnOk result (Appends cells.old.items cells.new.items (width_of problem.now)
        (opening_number problem.now (length problem.now.rows + columns problem.now))) }
{
    let cost = problem.cost();
    for number in cost {
        cells.push(whole(-number.abs()))?;
    }
    cells.push(fraction_of(dot_product(cost, starts)))?;
    Ok(())
}

/// The numbers of the opening dictionary, row by row.
pub(crate) fn opening_cells(alloc: Global, problem: &Problem<'_>) -> Result<Vec<Frac>, AllocError>
    requires { Fits problem.now }
    ensures size { IfOk result (λ v. length v.items ≡ height_of problem.now * width_of problem.now) }
    ensures places { IfOk result (λ v. (i j : ℕ) → i < height_of problem.now → j < width_of problem.now →
        placed v.items (width_of problem.now) i j ≡ whole_fraction (opening_number problem.now i j)) }
    ensures lowest_terms { IfOk result (λ v. AreReduced v.items) }
{
    let starts = starts_of(alloc, problem)?;
    let rows = problem.rows().len();
    let columns = problem.cost().len();
    let mut cells = Vec::with_capacity(alloc, (rows + columns + 1) * (columns + 1))?;
    for i in 0..rows {
        push_row(&mut cells, problem, &starts, i)?;
    }
    for k in 0..columns {
        push_range(&mut cells, problem, k)?;
    }
    push_cost(&mut cells, problem, &starts)?;
    Ok(cells)
}
