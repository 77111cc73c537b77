//! Rows, columns and followers of small programs.
ghost use Rattle.std.specs.Prelude.{◌≡◌, ◌≤◌, [], length, vec_len, All, IfOk};
ghost use Rattle.bl_raw.specs.Raw.{FitsModel, IsColumn, IsRow};

use bl_model::{Bilevel, Listed, Name, RawAux, RawColumn, RawMps, RawRow, build};
use std::alloc::{AllocError, Global};

fn name(alloc: Global, letter: u8) -> Result<Name, AllocError> {
    Ok(Listed::new(vec![in alloc; letter]?))
}

/// A row `lo <= coef·z <= hi`.
pub(crate) fn row(alloc: Global, lo: Option<i64>, hi: Option<i64>) -> Result<RawRow, AllocError>
    requires { IsRow (record { name = []; lo = lo; hi = hi }) }
    ensures { IfOk result IsRow }
{
    Ok(RawRow {
        name: name(alloc, b'R')?,
        lo,
        hi,
    })
}

/// A column from `lo` to `hi` of a program with so many rows, with pairs of a row and a coefficient.
pub(crate) fn column(
    alloc: Global,
    rows: usize,
    lo: i64,
    hi: i64,
    cost: i64,
    entries: &[(u32, i64)],
) -> Result<RawColumn, AllocError>
    requires { IsColumn rows (record { name = []; lo = lo; hi = hi; cost = cost; entries = entries.now }) }
    ensures { IfOk result (IsColumn rows) }
{
    Ok(RawColumn {
        name: name(alloc, b'C')?,
        lo,
        hi,
        cost,
        entries: Listed::new(entries.to_vec(alloc)?),
    })
}

/// The follower's columns and rows, his costs and his sense.
pub(crate) fn follower(
    alloc: Global,
    columns: &[u32],
    rows: &[u32],
    costs: &[i64],
    sense: i64,
) -> Result<RawAux, AllocError>
    ensures { IfOk result
        (λ aux. aux ≡ record { columns = columns.now; rows = rows.now; costs = costs.now; sense = sense }) }
{
    Ok(RawAux {
        columns: Listed::new(columns.to_vec(alloc)?),
        rows: Listed::new(rows.to_vec(alloc)?),
        costs: Listed::new(costs.to_vec(alloc)?),
        sense,
    })
}

/// The program of these rows, columns and follower.
pub(crate) fn program(
    alloc: Global,
    rows: Vec<RawRow>,
    columns: Vec<RawColumn>,
    aux: RawAux,
) -> Result<Bilevel, AllocError>
    requires row_count { vec_len rows ≤ 200 }
    requires column_count { vec_len columns ≤ 120 }
    requires rows { All IsRow rows.items }
    requires columns { All (IsColumn (length rows.items)) columns.items }
    requires aux { FitsModel (length columns.items) (length rows.items) aux }
{
    let mps = RawMps {
        maximise: false,
        objective: name(alloc, b'Z')?,
        rows: Listed::new(rows),
        columns: Listed::new(columns),
    };
    build(alloc, &mps, &aux)
}
