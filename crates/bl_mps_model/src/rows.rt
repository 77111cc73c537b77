//! The rows of the model.
ghost use Rattle.std.specs.Prelude.{◌≡◌, ◌<◌, ◌≤◌, All, IfOk, IfSome, false, length, unsigned_abs, vec_len};
ghost use Rattle.bl_limits.specs.declared.TheConstants.{MAX_TEXT_RHS};
ghost use Rattle.bl_raw.specs.Raw.{IsRow};
ghost use Rattle.bl_mps_terms.specs.Lines.{is_free};
ghost use Rattle.bl_mps_terms.specs.Meaning.{lhs_of, rhs_of, row_with};
ghost use Rattle.bl_mps_read.specs.Numbers.{AreWithin};
ghost use Rattle.bl_mps_read.specs.Rows.{AreRows};
ghost use Rattle.bl_mps_read.specs.RowViews.{rows_view};
ghost use Rattle.bl_mps_model.specs.Model.{raw_row, raw_rows};

use bl_mps_read::{BoundedRow, Rows};
use bl_mps_terms::RowKind;
use bl_raw::{Listed, Name, RawRow};
use std::alloc::{AllocError, Global};

/// A name of its own.
pub fn name_of(alloc: Global, bytes: &[u8]) -> Result<Name, AllocError>
    ensures { IfOk result (λ name. name ≡ bytes.now) }
{
    Ok(Name::new(Vec::from_slice(alloc, bytes)?))
}

/// The sides of a row of this kind.
fn sides_of(kind: RowKind, rhs: i64, range: Option<i64>) -> (Option<i64>, Option<i64>)
    requires rhs { unsigned_abs rhs ≤ MAX_TEXT_RHS }
    requires range { IfSome range (λ z. unsigned_abs z ≤ MAX_TEXT_RHS) }
    ensures lhs { result.0 ≡ lhs_of kind rhs range }
    ensures rhs { result.1 ≡ rhs_of kind rhs range }
{
    match (kind, range) {
        (RowKind::Free, _) => (None, None),
        (RowKind::AtMost, None) => (None, Some(rhs)),
        (RowKind::AtMost, Some(range)) if range < 0 => (Some(rhs + range), Some(rhs)),
        (RowKind::AtMost, Some(range)) => (Some(rhs - range), Some(rhs)),
        (RowKind::AtLeast, None) => (Some(rhs), None),
        (RowKind::AtLeast, Some(range)) if range < 0 => (Some(rhs), Some(rhs - range)),
        (RowKind::AtLeast, Some(range)) => (Some(rhs), Some(rhs + range)),
        (RowKind::Equal, None) => (Some(rhs), Some(rhs)),
        (RowKind::Equal, Some(range)) if range < 0 => (Some(rhs + range), Some(rhs)),
        (RowKind::Equal, Some(range)) => (Some(rhs), Some(rhs + range)),
    }
}

/// The row of a name and a kind, with its right-hand side and range.
fn row_with(name: Name, kind: RowKind, rhs: Option<i64>, range: Option<i64>) -> RawRow
    requires kind { is_free kind ≡ false }
    requires rhs { IfSome rhs (λ z. unsigned_abs z ≤ MAX_TEXT_RHS) }
    requires range { IfSome range (λ z. unsigned_abs z ≤ MAX_TEXT_RHS) }
    ensures exact { result ≡ row_with name kind rhs range }
    ensures limits { IsRow result }
{
    let (lo, hi) = sides_of(kind, rhs.unwrap_or(0), range);
    RawRow { name, lo, hi }
}

/// A row of the model.
fn raw_row(
    alloc: Global,
    rows: &Rows,
    right_sides: &[Option<i64>],
    ranges: &[Option<i64>],
    row: BoundedRow,
) -> Result<RawRow, AllocError>
    requires kind { is_free row.kind ≡ false }
    requires place { row.place < length rows.now.names }
    requires right_sides { (length right_sides.now ≡ length rows.now.names) × AreWithin MAX_TEXT_RHS right_sides.now }
    requires ranges { (length ranges.now ≡ length rows.now.names) × AreWithin MAX_TEXT_RHS ranges.now }
    ensures exact { IfOk result (λ raw. raw ≡ raw_row rows.now.names right_sides.now ranges.now row) }
    ensures limits { IfOk result IsRow }
{
    let name = name_of(alloc, rows.names.at(row.place))?;
    Ok(row_with(name, row.kind, right_sides[row.place], ranges[row.place]))
}

/// The rows of the model, which are no N rows.
pub fn raw_rows(
    alloc: Global,
    rows: &Rows,
    right_sides: &[Option<i64>],
    ranges: &[Option<i64>],
) -> Result<Listed<RawRow>, AllocError>
    requires rows { AreRows (rows_view rows.now) }
    requires right_sides { (length right_sides.now ≡ length rows.now.names) × AreWithin MAX_TEXT_RHS right_sides.now }
    requires ranges { (length ranges.now ≡ length rows.now.names) × AreWithin MAX_TEXT_RHS ranges.now }
    ensures exact { IfOk result (λ raw. raw ≡ raw_rows (rows_view rows.now) right_sides.now ranges.now) }
    ensures count { IfOk result (λ raw. length raw ≡ vec_len rows.now.bounded) }
    ensures limits { IfOk result (All IsRow) }
{
    let mut raw = Vec::new(alloc);
    for row in &rows.bounded {
        raw.push(raw_row(alloc, rows, right_sides, ranges, *row)?)?;
    }
    Ok(Listed::new(raw))
}
