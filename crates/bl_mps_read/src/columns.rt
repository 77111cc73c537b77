//! The lines under COLUMNS.
ghost use Rattle.std.specs.Prelude.{◌≡◌, ◌<◌, All, OnOk, length, vec_len};
ghost use Rattle.bl_text.specs.Fields.{fields_of};
ghost use Rattle.bl_mps_terms.specs.Lines.{is_marker};
ghost use Rattle.bl_mps_read.specs.Bounds.{no_bounds};
ghost use Rattle.bl_raw.specs.Raw.{IsSmall};
ghost use Rattle.bl_mps_read.specs.Columns.{AreColumns, no_columns, begun, number_set, marked, coefficient_given};
ghost use Rattle.bl_mps_read.specs.Columns.{column_added, marker_read};
ghost use Rattle.bl_mps_read.specs.ColumnViews.{columns_view};
ghost use Rattle.bl_mps_read.specs.Rows.{AreRows};
ghost use Rattle.bl_mps_read.specs.RowViews.{rows_view};
ghost use Rattle.bl_mps_read.specs.Stops.{Leaves, Makes, taken_up};
ghost use Rattle.bl_mps_read.specs.Views.{pair_view, pairs_view};

use crate::bounds::Bounds;
use crate::coefficients::Coefficients;
use crate::fields::{Pair, Pairs, entry_line, only_pair};
use crate::names::NameTable;
use crate::numbers::read_pair;
use crate::rows::Rows;
use crate::stop::Stop;
use bl_limits::{MAX_COLUMNS, MAX_NUMBER};
use bl_mps_terms::{MpsRule, is_word};
use bl_text::split_field;
use std::alloc::Global;

/// The columns in order of first appearance.
#[derive(Drop)]
pub struct Columns {
    pub names: NameTable,
    /// The numbers of each column by the slots of the rows.
    pub numbers: Vec<Coefficients>,
    pub bounds: Vec<Bounds>,
    /// For each row the number of the last column that gave it a number, 0 where none did.
    pub marks: Vec<u32>,
    /// Whether the columns that begin here are integer.
    pub inside: bool,
}

pub fn no_columns(alloc: Global) -> Columns
    ensures view { columns_view result ≡ no_columns }
    ensures tidy { AreColumns (columns_view result) }
{
    Columns {
        names: NameTable::new(alloc),
        numbers: Vec::new(alloc),
        bounds: Vec::new(alloc),
        marks: Vec::new(alloc),
        inside: false,
    }
}

/// Makes the column the last: it begins where it isn't there yet.
#[tactic(auto, unfolding(crate::specs::Columns::begun))]
fn begin_column(alloc: Global, rows: &Rows, columns: &mut Columns, name: &[u8]) -> Result<(), Stop>
    requires rows { AreRows (rows_view rows.now) }
    requires columns { AreColumns (columns_view columns.old) }
    ensures columns { OnOk result (AreColumns (columns_view columns.new)) }
    ensures begun { Leaves result (columns_view columns.new)
        (begun (rows_view rows.now) (columns_view columns.old) name.now) }
    ensures marks { columns.new.marks ≡ columns.old.marks }
{
    match columns.names.place_of(name) {
        None => {
            if columns.names.len() >= MAX_COLUMNS {
                return Err(Stop::Rule(MpsRule::TooMany));
            }
            columns.names.push(alloc, name)?;
            columns
                .numbers
                .push(Coefficients::zeros(alloc, rows.bounded.len() + 1)?)?;
            columns.bounds.push(Bounds::none(columns.inside))?;
            Ok(())
        }
        Some(place) if place + 1 == columns.names.len() => Ok(()),
        Some(_) => Err(Stop::Rule(MpsRule::DuplicateColumn)),
    }
}

/// Notes that a column gives a row a number, which it hasn't done yet.
fn mark(marks: &mut Vec<u32>, row: usize, column: u32) -> Result<(), MpsRule>
    requires { row < vec_len marks.old }
    ensures marked { Makes result marks.new.items (marked marks.old.items row column) }
    ensures count { vec_len marks.new ≡ vec_len marks.old }
{
    if marks[row] == column {
        return Err(MpsRule::DuplicateEntry);
    }
    marks[row] = column;
    Ok(())
}

/// Sets the number at a slot of the last column.
fn set_number(numbers: &mut Vec<Coefficients>, slot: Option<u32>, number: i64)
    ensures set { numbers.new.items ≡ number_set numbers.old.items slot number }
    ensures count { vec_len numbers.new ≡ vec_len numbers.old }
    ensures small { IsSmall number → All (All IsSmall) numbers.old.items → All (All IsSmall) numbers.new.items }
{
    let Some(slot) = slot else {
        return;
    };
    let Some(last) = numbers.len().checked_sub(1) else {
        return;
    };
    let coefficients = &mut numbers[last];
    coefficients.set(slot as usize, number);
}

/// Enters a pair of a row and a number at the last column.
#[tactic(auto, unfolding(crate::specs::Columns::coefficient_given))]
fn give_coefficient(rows: &Rows, columns: &mut Columns, pair: Pair<'_>) -> Result<(), MpsRule>
    requires marks { vec_len columns.old.marks ≡ length rows.now.names }
    requires rows { AreRows (rows_view rows.now) }
    requires columns { AreColumns (columns_view columns.old) }
    ensures given { Makes result (columns_view columns.new)
        (coefficient_given (rows_view rows.now) (columns_view columns.old) (pair_view pair.entry)) }
    ensures columns { OnOk result (AreColumns (columns_view columns.new)) }
    ensures marks { vec_len columns.new.marks ≡ vec_len columns.old.marks }
{
    let (row, number) = read_pair(&rows.names, MAX_NUMBER, pair)?;
    mark(&mut columns.marks, row, columns.names.len() as u32)?;
    set_number(&mut columns.numbers, rows.slots[row], number);
    Ok(())
}

/// Enters the pairs of a line at the last column.
#[tactic(auto, unfolding(crate::specs::Stops::taken_up))]
fn give_coefficients(rows: &Rows, columns: &mut Columns, pairs: Pairs<'_>) -> Result<(), MpsRule>
    requires marks { vec_len columns.old.marks ≡ length rows.now.names }
    requires rows { AreRows (rows_view rows.now) }
    requires columns { AreColumns (columns_view columns.old) }
    ensures columns { OnOk result (AreColumns (columns_view columns.new)) }
    ensures marks { vec_len columns.new.marks ≡ vec_len columns.old.marks }
    ensures given { Makes result (columns_view columns.new)
        (taken_up (coefficient_given (rows_view rows.now)) (columns_view columns.old) (pairs_view pairs.entry)) }
{
    give_coefficient(rows, columns, pairs.pair)?;
    match pairs.more {
        Some(pair) => give_coefficient(rows, columns, pair),
        None => Ok(()),
    }
}

/// Whether the second field is the marker word.
fn is_marker(line: &[u8]) -> bool
    ensures { result ≡ is_marker (fields_of line.now) }
{
    let Some((_, rest)) = split_field(line) else {
        return false;
    };
    let Some((second, _)) = split_field(rest) else {
        return false;
    };
    is_word(second, "'MARKER'")
}

/// Whether the columns behind a marker line are integer.
fn read_marker(line: &[u8]) -> Result<bool, MpsRule>
    ensures { result ≡ marker_read (fields_of line.now) }
{
    let (_, rest) = split_field(line).ok_or(MpsRule::BadFields)?;
    let pair = only_pair(rest).ok_or(MpsRule::BadFields)?;
    if is_word(pair.second, "'INTORG'") {
        Ok(true)
    } else if is_word(pair.second, "'INTEND'") {
        Ok(false)
    } else {
        Err(MpsRule::BadFields)
    }
}

/// Takes up a line: a marker, or numbers of a column.
#[tactic(auto, unfolding(crate::specs::Columns::column_added))]
pub fn add_column_line(
    alloc: Global,
    rows: &Rows,
    columns: &mut Columns,
    line: &[u8],
) -> Result<(), Stop>
    requires marks { vec_len columns.old.marks ≡ length rows.now.names }
    requires rows { AreRows (rows_view rows.now) }
    requires columns { AreColumns (columns_view columns.old) }
    ensures columns { OnOk result (AreColumns (columns_view columns.new)) }
    ensures marks { OnOk result (vec_len columns.new.marks ≡ vec_len columns.old.marks) }
    ensures added { Leaves result (columns_view columns.new)
        (column_added (rows_view rows.now) (columns_view columns.old) (fields_of line.now)) }
{
    if is_marker(line) {
        columns.inside = read_marker(line)?;
        return Ok(());
    }
    let entry = entry_line(line).ok_or(MpsRule::BadFields)?;
    begin_column(alloc, rows, columns, entry.name)?;
    give_coefficients(rows, columns, entry.pairs)?;
    Ok(())
}
