//! The model of what was read.
ghost use Rattle.std.specs.Prelude.{◌≡◌, ◌<◌, ◌≤◌, ◌≤ℤ◌, pos, ℕ, All, IfOk, None, length, false, slice_index_or};
ghost use Rattle.std.specs.Prelude.{unsigned_abs};
ghost use Rattle.bl_limits.specs.declared.TheConstants.{MAX_TEXT_ROWS, MAX_NUMBER};
ghost use Rattle.bl_raw.specs.Raw.{IsColumn, IsRawModel};
ghost use Rattle.bl_mps_read.specs.Bounds.{AreSmall, no_bounds};
ghost use Rattle.bl_raw.specs.Raw.{IsSmall};
ghost use Rattle.bl_mps_read.specs.Columns.{AreColumns};
ghost use Rattle.bl_mps_read.specs.ColumnViews.{columns_view};
ghost use Rattle.bl_mps_read.specs.Errors.{GivesRead};
ghost use Rattle.bl_mps_read.specs.Reader.{IsTidy};
ghost use Rattle.bl_mps_read.specs.ReaderViews.{reader_view};
ghost use Rattle.bl_mps_model.specs.Model.{raw_column, column_at, raw_columns, model_read};
ghost use Rattle.bl_mps_model.specs.Whole.{bounds_fault, bounds_faults};

use crate::entries::{number_at, raw_entries};
use crate::rows::{name_of, raw_rows};
use crate::whole::{bounds_faults, upper_in};
use bl_mps_read::{Bounds, Columns, MpsError, Reader, fault_at};
use bl_mps_terms::MpsRule;
use bl_raw::{Listed, RawColumn, RawMps};
use std::alloc::{AllocError, Global};

/// The column of a name, its numbers and its bounds.
fn raw_column(
    alloc: Global,
    default: i64,
    rows: usize,
    name: &[u8],
    numbers: &[i64],
    bounds: Bounds,
) -> Result<RawColumn, AllocError>
    requires rows { rows ≤ MAX_TEXT_ROWS }
    requires small { All IsSmall numbers.now }
    requires small_bounds { AreSmall bounds }
    requires small_default { unsigned_abs default ≤ MAX_NUMBER }
    requires faultless { bounds_fault default bounds ≡ None }
    ensures exact { IfOk result (λ column. column ≡ raw_column default rows name.now numbers.now bounds) }
    ensures limits { IfOk result (IsColumn rows) }
{
    let lo = bounds.lower.unwrap_or(0);
    let hi = upper_in(default, bounds).unwrap_or(0);
    let cost = number_at(numbers, 0);
    let entries = Listed::new(raw_entries(alloc, numbers, rows)?);
    Ok(RawColumn {
        name: name_of(alloc, name)?,
        lo,
        hi,
        cost,
        entries,
    })
}

/// The columns of the model.
fn raw_columns(
    alloc: Global,
    default: i64,
    rows: usize,
    columns: &Columns,
) -> Result<Listed<RawColumn>, AllocError>
    requires rows { rows ≤ MAX_TEXT_ROWS }
    requires tidy { AreColumns (columns_view columns.now) }
    requires small_default { unsigned_abs default ≤ MAX_NUMBER }
    requires faultless { (k : ℕ) → k < length columns.now.bounds.items
        → bounds_fault default (slice_index_or columns.now.bounds.items k (no_bounds false)) ≡ None }
    ensures exact { IfOk result (λ raw. raw ≡ raw_columns default rows (columns_view columns.now)) }
    ensures count { IfOk result (λ raw. length raw ≡ length columns.now.names) }
    ensures limits { IfOk result (All (IsColumn rows)) }
{
    let mut raw = Vec::new(alloc);
    for place in 0..columns.names.len() {
        let name = columns.names.at(place);
        let coefficients = &columns.numbers[place];
        let numbers = coefficients.as_slice();
        let bounds = columns.bounds[place];
        let column = raw_column(alloc, default, rows, name, numbers, bounds)?;
        raw.push(column)?;
    }
    Ok(Listed::new(raw))
}

/// The model of what was read, or the first fault of the whole.
#[tactic(auto, unfolding(crate::specs::Model::model_read))]
pub fn model_of(alloc: Global, default: i64, reader: &Reader) -> Result<RawMps, MpsError>
    requires tidy { IsTidy (reader_view reader.now) }
    requires default { (pos 0 ≤ℤ default) × (unsigned_abs default ≤ MAX_NUMBER) }
    ensures exact { GivesRead (λ mps. mps) result (model_read default (reader_view reader.now)) }
    ensures limits { IfOk result IsRawModel }
{
    let Some(place) = reader.rows.objective else {
        return Err(fault_at(0, MpsRule::NoObjective));
    };
    let bounds = reader.columns.bounds.as_slice();
    if let Some(fault) = bounds_faults(default, bounds) {
        return Err(MpsError::Fault(fault));
    }
    let name = reader.rows.names.at(place);
    let objective = name_of(alloc, name)?;
    let right_sides = reader.right_sides.as_slice();
    let ranges = reader.ranges.as_slice();
    let rows = raw_rows(alloc, &reader.rows, right_sides, ranges)?;
    let count = reader.rows.bounded.len();
    let columns = raw_columns(alloc, default, count, &reader.columns)?;
    Ok(RawMps {
        maximise: reader.sense.unwrap_or(false),
        objective,
        rows,
        columns,
    })
}
