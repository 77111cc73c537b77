//! The lines of each section, put at a text's end.
ghost use Rattle.std.specs.Prelude.{◌≡◌, ◌++◌, ◌<◌, length, All, OnOk};
ghost use Rattle.bl_raw.specs.Raw.{IsRow};
ghost use Rattle.bl_mps_write.specs.Canonical.{row_lines, name_at, coefficient_lines, cost_and_coefficients};
ghost use Rattle.bl_mps_write.specs.Canonical.{column_lines, nonzero_line, range_line, rhs_lines, range_lines};
ghost use Rattle.bl_mps_write.specs.Canonical.{both_bounds, bound_lines};

use crate::form::{form_of, letter_of};
use crate::put::{put_number, put_words};
use bl_raw::{RawColumn, RawRow};
use std::alloc::AllocError;

/// The rows under ROWS, behind the objective.
pub(crate) fn put_rows(text: &mut Vec<u8>, rows: &[RawRow]) -> Result<(), AllocError>
    requires { All IsRow rows.now }
    ensures { OnOk result (text.new.items ≡ text.old.items ++ row_lines rows.now) }
{
    for row in rows {
        let letter = letter_of(form_of(row).kind);
        put_words(text, letter.as_bytes(), row.name.as_slice())?;
    }
    Ok(())
}

// The name of a row.
fn name_at(rows: &[RawRow], row: u32) -> &[u8]
    requires { row < length rows.now }
    ensures { result.now ≡ name_at rows.now row }
{
    rows[row as usize].name.as_slice()
}

// The coefficients of a column, each behind its row's name.
fn put_coefficients(
    text: &mut Vec<u8>,
    rows: &[RawRow],
    name: &[u8],
    entries: &[(u32, i64)],
) -> Result<(), AllocError>
    requires { All (λ e. e.0 < length rows.now) entries.now }
    ensures { OnOk result (text.new.items ≡ text.old.items ++ coefficient_lines rows.now name.now entries.now) }
{
    for (row, number) in entries {
        put_number(text, name, name_at(rows, *row), *number)?;
    }
    Ok(())
}

// A column's lines: its cost, also where that is 0, and its coefficients.
fn put_column(
    text: &mut Vec<u8>,
    objective: &[u8],
    rows: &[RawRow],
    column: &RawColumn,
) -> Result<(), AllocError>
    requires { All (λ e. e.0 < length rows.now) column.now.entries }
    ensures { OnOk result (text.new.items ≡ text.old.items ++ cost_and_coefficients objective.now rows.now column.now) }
{
    let name = column.name.as_slice();
    put_number(text, name, objective, column.cost)?;
    put_coefficients(text, rows, name, column.entries.as_slice())
}

/// The columns under COLUMNS.
pub(crate) fn put_columns(
    text: &mut Vec<u8>,
    objective: &[u8],
    rows: &[RawRow],
    columns: &[RawColumn],
) -> Result<(), AllocError>
    requires { All (λ c. All (λ e. e.0 < length rows.now) c.entries) columns.now }
    ensures { OnOk result (text.new.items ≡ text.old.items ++ column_lines objective.now rows.now columns.now) }
{
    for column in columns {
        put_column(text, objective, rows, column)?;
    }
    Ok(())
}

fn put_nonzero(text: &mut Vec<u8>, name: &[u8], number: i64) -> Result<(), AllocError>
    ensures { OnOk result (text.new.items ≡ text.old.items ++ nonzero_line name.now number) }
{
    if number != 0 {
        put_number(text, b"RHS", name, number)?;
    }
    Ok(())
}

/// The right-hand sides under RHS that aren't 0.
pub(crate) fn put_rhs(text: &mut Vec<u8>, rows: &[RawRow]) -> Result<(), AllocError>
    requires { All IsRow rows.now }
    ensures { OnOk result (text.new.items ≡ text.old.items ++ rhs_lines rows.now) }
{
    for row in rows {
        put_nonzero(text, row.name.as_slice(), form_of(row).rhs)?;
    }
    Ok(())
}

fn put_range(text: &mut Vec<u8>, name: &[u8], range: Option<i64>) -> Result<(), AllocError>
    ensures { OnOk result (text.new.items ≡ text.old.items ++ range_line name.now range) }
{
    if let Some(range) = range {
        put_number(text, b"RANGE", name, range)?;
    }
    Ok(())
}

/// The ranges under RANGES.
pub(crate) fn put_ranges(text: &mut Vec<u8>, rows: &[RawRow]) -> Result<(), AllocError>
    requires { All IsRow rows.now }
    ensures { OnOk result (text.new.items ≡ text.old.items ++ range_lines rows.now) }
{
    for row in rows {
        put_range(text, row.name.as_slice(), form_of(row).range)?;
    }
    Ok(())
}

fn put_both_bounds(text: &mut Vec<u8>, column: &RawColumn) -> Result<(), AllocError>
    ensures { OnOk result (text.new.items ≡ text.old.items ++ both_bounds column.now) }
{
    let name = column.name.as_slice();
    put_number(text, b"LO BND", name, column.lo)?;
    put_number(text, b"UP BND", name, column.hi)
}

/// Both bounds of each column under BOUNDS.
pub(crate) fn put_bounds(text: &mut Vec<u8>, columns: &[RawColumn]) -> Result<(), AllocError>
    ensures { OnOk result (text.new.items ≡ text.old.items ++ bound_lines columns.now) }
{
    for column in columns {
        put_both_bounds(text, column)?;
    }
    Ok(())
}
