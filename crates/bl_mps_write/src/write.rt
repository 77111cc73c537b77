//! The canonical text, section by section.
ghost use Rattle.std.specs.Prelude.{◌≡◌, ◌++◌, codes, IfOk, OnOk};
ghost use Rattle.bl_raw.specs.Raw.{IsRawModel};
ghost use Rattle.bl_mps_write.specs.Canonical.{sense_lines, mps_text};

use crate::put::put_words;
use crate::sections::{put_bounds, put_columns, put_ranges, put_rhs, put_rows};
use bl_raw::RawMps;
use std::alloc::{AllocError, Global};

fn put_sense(text: &mut Vec<u8>, maximise: bool) -> Result<(), AllocError>
    ensures { OnOk result (text.new.items ≡ text.old.items ++ sense_lines maximise) }
{
    if maximise {
        text.extend_from_slice(b"OBJSENSE\n MAX\n")?;
    }
    Ok(())
}

/// The canonical text of a model: one space between fields and before each data line, names as
/// they are, numbers in plain decimal, a column's cost also where it is 0, every heading but
/// OBJSENSE, and both bounds of each column.
#[tactic(auto, unfolding(crate::specs::Canonical::mps_text))]
pub fn write_mps(alloc: Global, mps: &RawMps) -> Result<Vec<u8>, AllocError>
    requires { IsRawModel mps.now }
    ensures { IfOk result (λ text. text.items ≡ mps_text mps.now) }
{
    let objective = mps.objective.as_slice();
    let rows = mps.rows.as_slice();
    let columns = mps.columns.as_slice();
    let mut text = Vec::new(alloc);
    text.extend_from_slice(b"NAME\n")?;
    put_sense(&mut text, mps.maximise)?;
    text.extend_from_slice(b"ROWS\n")?;
    put_words(&mut text, b"N", objective)?;
    put_rows(&mut text, rows)?;
    text.extend_from_slice(b"COLUMNS\n MARKER 'MARKER' 'INTORG'\n")?;
    put_columns(&mut text, objective, rows, columns)?;
    text.extend_from_slice(b" MARKER 'MARKER' 'INTEND'\nRHS\n")?;
    put_rhs(&mut text, rows)?;
    text.extend_from_slice(b"RANGES\n")?;
    put_ranges(&mut text, rows)?;
    text.extend_from_slice(b"BOUNDS\n")?;
    put_bounds(&mut text, columns)?;
    text.extend_from_slice(b"ENDATA\n")?;
    Ok(text)
}
