//! Kept rows, one after another.
ghost use Rattle.std.specs.Prelude.{◌≡◌, ◌<◌, ◌≤◌, length, All, IfOk, OnOk, OnErr, Some, None};
ghost use Rattle.bl_tableau.specs.Cells.{AreReduced};
ghost use Rattle.bl_elimination.specs.Elimination.{reduced, cleared, identity_parts as identity_parts_of};

use crate::row::Row;
use bl_frac::{Frac, WideFrac};
use std::alloc::{AllocError, Global};

/// Takes from a row its entries at the pivot columns of the rows, one after another.
pub(crate) fn reduce_by(row: &mut Row, columns: &[u32], rows: &[Row]) -> Result<(), WideFrac>
    requires pairs { length columns.now ≡ length rows.now }
    requires columns_in { All (λ c. c < length row.old) columns.now }
    requires sizes { All (λ by. length by ≡ length row.old) rows.now }
    ensures ok { OnOk result (reduced columns.now rows.now row.old ≡ Some row.new) }
    ensures err { OnErr result (reduced columns.now rows.now row.old ≡ None) }
    ensures size { length row.new ≡ length row.old }
{
    for i in 0..rows.len() {
        let by = &rows[i];
        row.reduce(by, columns[i] as usize)?;
    }
    Ok(())
}

/// Takes from each of the rows its entry at `column`, by a row that has 1 there.
pub(crate) fn clear(rows: &mut [Row], by: &Row, column: usize) -> Result<(), WideFrac>
    requires column_in { column < length by.now }
    requires sizes { All (λ row. length row ≡ length by.now) rows.old }
    ensures ok { OnOk result (cleared column by.now rows.old ≡ Some rows.new) }
    ensures err { OnErr result (cleared column by.now rows.old ≡ None) }
    ensures sizes { OnOk result (All (λ row. length row ≡ length by.now) rows.new) }
{
    for i in 0..rows.len() {
        let row = &mut rows[i];
        row.reduce(by, column)?;
    }
    Ok(())
}

/// The identity parts of the rows, one after another.
pub(crate) fn identity_parts(
    alloc: Global,
    rows: &[Row],
    columns: usize,
) -> Result<Vec<Frac>, AllocError>
    requires { All (λ row. columns ≤ length row) rows.now }
    ensures value { IfOk result (λ parts. parts.items ≡ identity_parts_of columns rows.now) }
    ensures lowest_terms { IfOk result (λ parts. AreReduced parts.items) }
{
    let mut parts = Vec::new(alloc);
    for i in 0..rows.len() {
        let row = &rows[i];
        row.push_identity(columns, &mut parts)?;
    }
    Ok(parts)
}
