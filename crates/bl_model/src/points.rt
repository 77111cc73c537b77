//! Points against rows and ranges. Sums stay below 2^54: `MAX_COLUMNS` products of two numbers of
//! magnitude at most `MAX_NUMBER`.

ghost use Rattle.std.specs.Prelude.{◌≡◌, ◌↔◌, ◌<◌, ◌≤◌, ◌*◌, ◌*ℤ◌, length, All, IsTrue, IfOk};
ghost use Rattle.bl_whole.specs.Sums.{dot};
ghost use Rattle.bl_limits.specs.declared.TheConstants.{MAX_COLUMNS, MAX_NUMBER};
ghost use Rattle.bl_whole.specs.Within.{IsWithin, AreWithin};
ghost use Rattle.bl_terms.specs.Points.{InArea, Meets, values_at};
ghost use Rattle.bl_terms.specs.Programs.{inequality, IsSense};
ghost use Rattle.bl_model.specs.Points.{MeetsAll, MeetsMarked, AreShort, IsShort};

use crate::row::BRow;
use bl_whole::int64::plus_product;
use std::alloc::{AllocError, Global};

/// The sum of the products at each place.
pub(crate) fn dot(coef: &[i64], z: &[i64]) -> i64
    requires few { length coef.now ≤ MAX_COLUMNS }
    requires places { length z.now ≡ length coef.now }
    requires coef { AreWithin MAX_NUMBER coef.now }
    requires z { AreWithin MAX_NUMBER z.now }
    ensures { result ≡ dot coef.now z.now }
{
    let mut sum = 0;
    for k in 0..coef.len() {
        sum = plus_product(sum, coef[k], z[k]);
    }
    sum
}

/// A cost in the sense in which it was given: negated where that is to be maximised.
pub(crate) fn in_sense(cost: i64, sense: i64) -> i64
    requires cost { IsWithin (MAX_COLUMNS * (MAX_NUMBER * MAX_NUMBER)) cost }
    requires sense { IsSense sense }
    ensures { result ≡ sense *ℤ cost }
{
    sense * cost
}

/// Whether each number of the point lies in its range.
pub(crate) fn lies_in(lo: &[i64], hi: &[i64], z: &[i64]) -> bool
    requires { length hi.now ≡ length lo.now }
    ensures { IsTrue result ↔ InArea (record { lo = lo.now; hi = hi.now }) z.now }
{
    if z.len() != lo.len() {
        return false;
    }
    for k in 0..lo.len() {
        if z[k] < lo[k] || hi[k] < z[k] {
            return false;
        }
    }
    true
}

fn meets(row: &BRow, z: &[i64]) -> bool
    requires row { IsShort (length z.now) row.now }
    requires few { length z.now ≤ MAX_COLUMNS }
    requires z { AreWithin MAX_NUMBER z.now }
    ensures { IsTrue result ↔ Meets (inequality row.now) z.now }
{
    dot(&row.coef, z) <= row.right
}

/// Whether the point meets every row.
pub(crate) fn meets_all(rows: &[BRow], z: &[i64]) -> bool
    requires rows { AreShort (length z.now) rows.now }
    requires few { length z.now ≤ MAX_COLUMNS }
    requires z { AreWithin MAX_NUMBER z.now }
    ensures { IsTrue result ↔ MeetsAll rows.now z.now }
{
    for row in rows {
        if !meets(row, z) {
            return false;
        }
    }
    true
}

/// Whether the point meets every row that is marked as the follower's.
pub(crate) fn meets_marked(rows: &[BRow], z: &[i64]) -> bool
    requires rows { AreShort (length z.now) rows.now }
    requires few { length z.now ≤ MAX_COLUMNS }
    requires z { AreWithin MAX_NUMBER z.now }
    ensures { IsTrue result ↔ MeetsMarked rows.now z.now }
{
    for row in rows {
        if row.lower && !meets(row, z) {
            return false;
        }
    }
    true
}

/// The numbers of the point in these columns, in their order.
pub(crate) fn numbers_at(alloc: Global, z: &[i64], columns: &[u32]) -> Result<Vec<i64>, AllocError>
    requires { All (λ k. k < length z.now) columns.now }
    ensures { IfOk result (λ v. v.items ≡ values_at z.now columns.now) }
{
    let mut numbers = Vec::with_capacity(alloc, columns.len())?;
    for column in columns {
        numbers.push(z[*column as usize])?;
    }
    Ok(numbers)
}
