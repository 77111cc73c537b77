//! The coefficients of a column beside their rows.
ghost use Rattle.std.specs.Prelude.{◌≡◌, ◌+◌, ◌≤◌, ◌++◌, ◌∷◌, [], All, IfOk, OnOk, not, if◌then◌else◌};
ghost use Rattle.bl_limits.specs.declared.TheConstants.{MAX_TEXT_ROWS};
ghost use Rattle.bl_mps_terms.specs.Rules.{is_zero};
ghost use Rattle.bl_raw.specs.Raw.{IsSmall};
ghost use Rattle.bl_mps_model.specs.Model.{number_at, entry_at, raw_entries, AreEntries};

use std::alloc::{AllocError, Global};

/// The number at a slot, 0 where there is none.
pub fn number_at(numbers: &[i64], slot: usize) -> i64
    ensures value { result ≡ number_at numbers.now slot }
    ensures small { All IsSmall numbers.now → IsSmall result }
{
    numbers.get(slot).copied().unwrap_or(0)
}

/// The nonzero coefficients of a column beside their rows, in rising order of rows.
pub fn raw_entries(
    alloc: Global,
    numbers: &[i64],
    rows: usize,
) -> Result<Vec<(u32, i64)>, AllocError>
    requires rows { rows ≤ MAX_TEXT_ROWS }
    requires small { All IsSmall numbers.now }
    ensures exact { IfOk result (λ entries. entries.items ≡ raw_entries numbers.now rows) }
    ensures limits { IfOk result (λ entries. AreEntries rows entries.items) }
{
    let mut entries = Vec::new(alloc);
    for row in 0..rows {
        add_entry(&mut entries, numbers, row)?;
    }
    Ok(entries)
}

/// Adds the coefficient of a row, where it isn't 0.
fn add_entry(entries: &mut Vec<(u32, i64)>, numbers: &[i64], row: usize) -> Result<(), AllocError>
    requires row { row ≤ MAX_TEXT_ROWS }
    requires small { All IsSmall numbers.now }
    requires old { AreEntries row entries.old.items }
    ensures exact { OnOk result (entries.new.items ≡ entries.old.items
        ++ (if not (is_zero (number_at numbers.now (row + 1))) then entry_at numbers.now row ∷ [] else [])) }
    ensures new { OnOk result (AreEntries (row + 1) entries.new.items) }
{
    let number = number_at(numbers, row + 1);
    if number != 0 {
        entries.push((row as u32, number))?;
    }
    Ok(())
}
