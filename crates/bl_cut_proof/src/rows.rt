//! The rows that a cut adds up.
ghost use Rattle.std.specs.Prelude.{◌≡◌, ◌<◌, length, slice_set, neg_ℤ, All, IfOk};
ghost use Rattle.bl_limits.specs.declared.TheConstants.{MAX_NUMBER};
ghost use Rattle.bl_whole.specs.Within.{IsWithin};
ghost use Rattle.bl_terms.specs.Points.{zeros};
ghost use Rattle.bl_terms.specs.Programs.{columns as column_count};
ghost use Rattle.bl_cut_terms.specs.NoGoods.{tight_row as row_of, tight_rows as rows_of, IsThere, local_row_at};
ghost use Rattle.bl_cut_proof.specs.Proving.{local_rows};

use bl_cut::{CutRow, Cuts, Tight};
use bl_model::{Bilevel, Box2};
use std::alloc::{AllocError, Global};

/// A row with one coefficient.
pub fn side(
    alloc: Global,
    columns: usize,
    column: usize,
    coefficient: i64,
    right: i64,
) -> Result<CutRow, AllocError>
    requires { column < columns }
    ensures { IfOk result (λ row. row ≡ record { coef = slice_set (zeros columns) column coefficient; rhs = right }) }
{
    let mut coef = vec![in alloc; 0i64; columns]?;
    coef[column] = coefficient;
    Ok(CutRow { coef, right })
}

/// A copy of a row.
pub fn copied(alloc: Global, coef: &[i64], right: i64) -> Result<CutRow, AllocError>
    ensures { IfOk result (λ row. row ≡ record { coef = coef.now; rhs = right }) }
{
    let coef = Vec::from_slice(alloc, coef)?;
    Ok(CutRow { coef, right })
}

/// The row of an earlier cut.
fn cut_row(alloc: Global, earlier: &Cuts, cut: u32) -> Result<CutRow, AllocError>
    ensures { IfOk result (λ row. row ≡ (local_row_at (local_rows earlier.now) cut).row) }
{
    match earlier.at(cut) {
        Some(cut) => copied(alloc, cut.coef(), cut.right()),
        None => copied(alloc, &[], 0),
    }
}

/// The number with the other sign.
fn negated(number: i64) -> i64
    requires { IsWithin MAX_NUMBER number }
    ensures { result ≡ neg_ℤ number }
{
    -number
}

/// The row that an item stands for.
pub fn tight_row(
    alloc: Global,
    model: &Bilevel,
    area: &Box2,
    earlier: &Cuts,
    item: Tight,
) -> Result<CutRow, AllocError>
    requires there { IsThere model.now area.now (local_rows earlier.now) item }
    requires columns { length area.now.lo ≡ column_count model.now }
    ensures { IfOk result (λ row. row ≡ row_of model.now area.now (local_rows earlier.now) item) }
{
    let columns = model.lo().len();
    match item {
        Tight::Row(place) => {
            let row = &model.rows()[place as usize];
            copied(alloc, &row.coef, row.right)
        }
        Tight::Upper(column) => {
            let column = column as usize;
            side(alloc, columns, column, 1, area.hi()[column])
        }
        Tight::Lower(column) => {
            let column = column as usize;
            side(alloc, columns, column, -1, negated(area.lo()[column]))
        }
        Tight::Cut(cut) => cut_row(alloc, earlier, cut),
    }
}

/// The rows that the items stand for.
pub fn tight_rows(
    alloc: Global,
    model: &Bilevel,
    area: &Box2,
    earlier: &Cuts,
    tight: &[Tight],
) -> Result<Vec<CutRow>, AllocError>
    requires there { All (IsThere model.now area.now (local_rows earlier.now)) tight.now }
    requires columns { length area.now.lo ≡ column_count model.now }
    ensures { IfOk result (λ rows. rows.items ≡ rows_of model.now area.now (local_rows earlier.now) tight.now) }
{
    let mut rows = Vec::with_capacity(alloc, tight.len())?;
    for item in tight {
        let row = tight_row(alloc, model, area, earlier, *item)?;
        rows.push(row)?;
    }
    Ok(rows)
}
