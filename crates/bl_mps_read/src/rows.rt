//! The lines under ROWS.
ghost use Rattle.std.specs.Prelude.{◌≡◌, ◌+◌, None, Ok, OnOk, length, position};
ghost use Rattle.std.specs.Str.{bytes_eq};
ghost use Rattle.bl_text.specs.Fields.{fields_of};
ghost use Rattle.bl_mps_terms.specs.Lines.{is_free};
ghost use Rattle.bl_mps_read.specs.Rows.{AreRows, no_rows, next_slot, row_added, row_pushed};
ghost use Rattle.bl_mps_read.specs.RowViews.{rows_view};
ghost use Rattle.bl_mps_read.specs.Stops.{Leaves};

use crate::fields::only_pair;
use crate::names::NameTable;
use crate::stop::Stop;
use bl_limits::MAX_TEXT_ROWS;
use bl_mps_terms::{MpsRule, RowKind, is_word, row_kind};
use std::alloc::Global;

/// A row that isn't an N row: its place among all rows, and its kind.
#[derive(Clone, Copy, Debug)]
pub struct BoundedRow {
    pub place: usize,
    pub kind: RowKind,
}

/// The rows in order, N rows among them. A row's slot is the place of its number among the numbers of a column: the
/// objective's is 0, the others' follow in order, and a further N row has none.
#[derive(Drop)]
pub struct Rows {
    pub names: NameTable,
    pub slots: Vec<Option<u32>>,
    /// The place of the first N row.
    pub objective: Option<usize>,
    /// The rows that aren't N rows.
    pub bounded: Vec<BoundedRow>,
}

pub fn no_rows(alloc: Global) -> Rows
    ensures view { rows_view result ≡ no_rows }
    ensures tidy { AreRows (rows_view result) }
{
    Rows {
        names: NameTable::new(alloc),
        slots: Vec::new(alloc),
        objective: None,
        bounded: Vec::new(alloc),
    }
}

pub fn is_free(kind: RowKind) -> bool
    ensures { result ≡ is_free kind }
{
    matches!(kind, RowKind::Free)
}

/// The slot of the next row, where it is of this kind.
fn next_slot(rows: &Rows, kind: RowKind) -> Result<Option<u32>, MpsRule>
    ensures { result ≡ next_slot (rows_view rows.now) kind }
{
    if is_free(kind) {
        return Ok(if rows.objective.is_none() {
            Some(0)
        } else {
            None
        });
    }
    if rows.bounded.len() >= MAX_TEXT_ROWS {
        return Err(MpsRule::TooMany);
    }
    Ok(Some(rows.bounded.len() as u32 + 1))
}

/// Adds the row of a line.
#[tactic(auto, unfolding(crate::specs::Rows::row_added))]
pub fn add_row(alloc: Global, rows: &mut Rows, line: &[u8]) -> Result<(), Stop>
    requires { AreRows (rows_view rows.old) }
    ensures tidy { OnOk result (AreRows (rows_view rows.new)) }
    ensures added { Leaves result (rows_view rows.new) (row_added (rows_view rows.old) (fields_of line.now)) }
    ensures names { OnOk result (length rows.new.names ≡ length rows.old.names + 1) }
{
    let pair = only_pair(line).ok_or(MpsRule::BadFields)?;
    let kind = row_kind(pair.first).ok_or(MpsRule::BadFields)?;
    if is_word(pair.second, "'MARKER'") {
        return Err(Stop::Rule(MpsRule::BadFields));
    }
    if rows.names.place_of(pair.second).is_some() {
        return Err(Stop::Rule(MpsRule::DuplicateRow));
    }
    let slot = next_slot(rows, kind)?;
    push_row(alloc, rows, pair.second, kind, slot)
}

/// Adds a row of this name, kind and slot.
fn push_row(
    alloc: Global,
    rows: &mut Rows,
    name: &[u8],
    kind: RowKind,
    slot: Option<u32>,
) -> Result<(), Stop>
    requires tidy { AreRows (rows_view rows.old) }
    requires fresh { position (bytes_eq name.now) rows.old.names ≡ None }
    requires slot { next_slot (rows_view rows.old) kind ≡ Ok slot }
    ensures tidy { OnOk result (AreRows (rows_view rows.new)) }
    ensures names { OnOk result (length rows.new.names ≡ length rows.old.names + 1) }
    ensures pushed { Leaves result (rows_view rows.new) (Ok (row_pushed (rows_view rows.old) name.now kind slot)) }
{
    let place = rows.names.len();
    rows.names.push(alloc, name)?;
    rows.slots.push(slot)?;
    if !is_free(kind) {
        rows.bounded.push(BoundedRow { place, kind })?;
    } else if rows.objective.is_none() {
        rows.objective = Some(place);
    }
    Ok(())
}
