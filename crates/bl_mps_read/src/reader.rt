//! The pass over the lines of a text.
ghost use Rattle.std.specs.Prelude.{◌≡◌, IfOk, OnOk};
ghost use Rattle.bl_text.specs.Fields.{fields_of};
ghost use Rattle.bl_text.specs.Lines.{lines_of};
ghost use Rattle.bl_mps_read.specs.Reader.{no_state, heading_sense, heading_read, sense_read, row_read, data_read};
ghost use Rattle.bl_mps_read.specs.Reader.{line_read, text_read, IsTidy};
ghost use Rattle.bl_mps_read.specs.ReaderViews.{reader_view};
ghost use Rattle.bl_mps_read.specs.Errors.{GivesRead, error_at};
ghost use Rattle.bl_mps_read.specs.Stops.{Leaves, Makes};

use crate::bounds::add_bound;
use crate::columns::{Columns, add_column_line, no_columns};
use crate::error::{MpsError, fault_at};
use crate::fields::only_field;
use crate::numbers::Numbers;
use crate::rows::{Rows, add_row, no_rows};
use crate::sections::{Sections, begins_section, is_skipped};
use crate::sides::{add_ranges, add_right_sides};
use crate::stop::Stop;
use bl_mps_terms::{MpsRule, Section, maximises, section_named};
use bl_text::{split_field, split_line};
use std::alloc::Global;

/// What the lines so far say.
#[derive(Drop)]
pub struct Reader {
    pub sections: Sections,
    /// Whether the leader maximises, where a word says so.
    pub sense: Option<bool>,
    pub rows: Rows,
    pub columns: Columns,
    pub right_sides: Numbers,
    pub ranges: Numbers,
}

fn no_reader(alloc: Global) -> Reader
    ensures view { reader_view result ≡ no_state }
    ensures tidy { IsTidy (reader_view result) }
{
    Reader {
        sections: Sections::none(),
        sense: None,
        rows: no_rows(alloc),
        columns: no_columns(alloc),
        right_sides: Numbers::new(alloc),
        ranges: Numbers::new(alloc),
    }
}

/// The sense that a section line of OBJSENSE gives behind its name.
fn heading_sense(rest: &[u8]) -> Result<Option<bool>, MpsRule>
    ensures { result ≡ heading_sense (fields_of rest.now) }
{
    let Some((word, _)) = split_field(rest) else {
        return Ok(None);
    };
    let sense = maximises(word).ok_or(MpsRule::BadObjSense)?;
    Ok(Some(sense))
}

/// Takes up a section line.
#[tactic(auto, unfolding(crate::specs::Reader::heading_read))]
fn read_heading(reader: &mut Reader, line: &[u8]) -> Result<(), MpsRule>
    requires { IsTidy (reader_view reader.old) }
    ensures tidy { OnOk result (IsTidy (reader_view reader.new)) }
    ensures read { Makes result (reader_view reader.new) (heading_read (reader_view reader.old) (fields_of line.now)) }
{
    let (name, rest) = split_field(line).ok_or(MpsRule::BadSection)?;
    let section = section_named(name).ok_or(MpsRule::BadSection)?;
    if !reader.sections.may_begin(section) {
        return Err(MpsRule::BadSection);
    }
    if let Section::ObjSense = section {
        reader.sense = heading_sense(rest)?;
    }
    reader.sections = reader.sections.begin(section);
    Ok(())
}

/// The sense that a data line gives where none was given.
fn read_sense(sense: Option<bool>, line: &[u8]) -> Result<Option<bool>, MpsRule>
    ensures { result ≡ sense_read sense (fields_of line.now) }
{
    let word = only_field(line).ok_or(MpsRule::BadFields)?;
    if sense.is_some() {
        return Err(MpsRule::BadObjSense);
    }
    let sense = maximises(word).ok_or(MpsRule::BadObjSense)?;
    Ok(Some(sense))
}

/// Takes up a line of a row, which has no numbers yet.
#[tactic(auto, unfolding(crate::specs::Reader::row_read))]
fn read_row(alloc: Global, reader: &mut Reader, line: &[u8]) -> Result<(), Stop>
    requires { IsTidy (reader_view reader.old) }
    ensures tidy { OnOk result (IsTidy (reader_view reader.new)) }
    ensures read { Leaves result (reader_view reader.new) (row_read (reader_view reader.old) (fields_of line.now)) }
{
    add_row(alloc, &mut reader.rows, line)?;
    reader.right_sides.push_none()?;
    reader.ranges.push_none()?;
    reader.columns.marks.push(0)?;
    Ok(())
}

/// Takes up a data line of the present section.
#[tactic(auto, unfolding(crate::specs::Reader::data_read))]
fn read_data(alloc: Global, reader: &mut Reader, line: &[u8]) -> Result<(), Stop>
    requires { IsTidy (reader_view reader.old) }
    ensures tidy { OnOk result (IsTidy (reader_view reader.new)) }
    ensures read { Leaves result (reader_view reader.new) (data_read (reader_view reader.old) (fields_of line.now)) }
{
    match reader.sections.present {
        Some(Section::ObjSense) => {
            reader.sense = read_sense(reader.sense, line)?;
            Ok(())
        }
        Some(Section::Rows) => read_row(alloc, reader, line),
        Some(Section::Columns) => add_column_line(alloc, &reader.rows, &mut reader.columns, line),
        Some(Section::RightSides) => {
            add_right_sides(&reader.rows, &mut reader.right_sides, line)?;
            Ok(())
        }
        Some(Section::Ranges) => {
            add_ranges(&reader.rows, &mut reader.ranges, line)?;
            Ok(())
        }
        Some(Section::Bounds) => {
            add_bound(&reader.columns.names, &mut reader.columns.bounds, line)?;
            Ok(())
        }
        Some(Section::Name | Section::End) | None => Err(Stop::Rule(MpsRule::BadSection)),
    }
}

/// Takes up a line.
#[tactic(auto, unfolding(crate::specs::Reader::line_read))]
fn read_line(alloc: Global, reader: &mut Reader, line: &[u8]) -> Result<(), Stop>
    requires { IsTidy (reader_view reader.old) }
    ensures tidy { OnOk result (IsTidy (reader_view reader.new)) }
    ensures read { Leaves result (reader_view reader.new) (line_read (reader_view reader.old) line.now) }
{
    if is_skipped(line) {
        return Ok(());
    }
    if begins_section(line) {
        read_heading(reader, line)?;
        return Ok(());
    }
    read_data(alloc, reader, line)
}

/// Takes up the lines of a text up to ENDATA.
#[tactic(auto, unfolding(crate::specs::Reader::text_read))]
pub fn read_lines(alloc: Global, text: &[u8]) -> Result<Reader, MpsError>
    ensures tidy { IfOk result (λ reader. IsTidy (reader_view reader)) }
    ensures read { GivesRead reader_view result (text_read 0 no_state (lines_of text.now)) }
{
    let mut reader = no_reader(alloc);
    let mut number = 0u64;
    let mut rest = text;
    while let Some((line, after)) = split_line(rest) {
        number += 1;
        if let Err(stop) = read_line(alloc, &mut reader, line) {
            return Err(stopped_at(number, stop));
        }
        if let Some(Section::End) = reader.sections.present {
            return Ok(reader);
        }
        rest = after;
    }
    Err(fault_at(number + 1, MpsRule::NoEnd))
}

/// The error of a reader that stopped at a line.
fn stopped_at(number: u64, stop: Stop) -> MpsError
    ensures { result ≡ error_at number stop }
{
    match stop {
        Stop::Rule(rule) => fault_at(number, rule),
        Stop::Memory => MpsError::Memory,
    }
}
