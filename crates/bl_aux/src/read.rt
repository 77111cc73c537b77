//! The reader of an auxiliary text.
ghost use Rattle.std.specs.Prelude.{◌≡◌, ◌≤◌, length, IfOk, IfErr};
ghost use Rattle.bl_limits.specs.declared.TheConstants.{MAX_TEXT_BYTES};
ghost use Rattle.bl_text.specs.Lines.{lines_of};
ghost use Rattle.bl_raw.specs.Raw.{FitsModel};
ghost use Rattle.bl_aux.specs.Given.{sizes_of};
ghost use Rattle.bl_aux.specs.Texts.{Says, IsRefused};
ghost use Rattle.bl_aux.specs.Drafts.{Enters, IsHeld, Reads, after_line, after_lines};

use crate::draft::Draft;
use crate::fault::{AuxError, AuxFault, AuxRule};
use crate::line::read_line;
use crate::stop::Stop;
use bl_limits::MAX_TEXT_BYTES;
use bl_raw::RawAux;
use bl_text::lines_of;
use std::alloc::Global;

/// Reads the auxiliary text of a model with so many columns and rows. Time is linear in the text, and memory in the
/// lines that are there, whatever counts they announce.
pub fn read_aux(alloc: Global, bytes: &[u8], columns: u32, rows: u32) -> Result<RawAux, AuxError>
    ensures said { IfOk result (Says (sizes_of columns rows) bytes.now) }
    ensures fits { IfOk result (FitsModel columns rows) }
    ensures refused { IfErr result (IsRefused (sizes_of columns rows) bytes.now) }
{
    if bytes.len() > MAX_TEXT_BYTES {
        return Err(whole_fault(AuxRule::TooLong));
    }
    let draft = read_lines(alloc, bytes, columns, rows)?;
    match draft.finish(alloc)? {
        Some(aux) => Ok(aux),
        None => Err(whole_fault(AuxRule::CountDiffers)),
    }
}

/// A fault of the whole text.
fn whole_fault(rule: AuxRule) -> AuxError
    ensures { result ≡ AuxError.Fault (record { rule = rule; line = 0 }) }
{
    AuxError::Fault(AuxFault { rule, line: 0 })
}

/// What all lines of a text give, where none of them breaks a rule.
fn read_lines(alloc: Global, text: &[u8], columns: u32, rows: u32) -> Result<Draft, AuxError>
    requires { length text.now ≤ MAX_TEXT_BYTES }
    ensures held { IfOk result (IsHeld (sizes_of columns rows) text.now) }
    ensures refused { IfErr result (IsRefused (sizes_of columns rows) text.now) }
{
    let mut draft = Draft::none(alloc, columns, rows);
    match enter_lines(&mut draft, text) {
        Ok(()) => Ok(draft),
        Err(error) => Err(error),
    }
}

/// Enters all lines of a text.
#[tactic(auto, unfolding(crate::specs::Drafts::after_lines))]
fn enter_lines(draft: &mut Draft, text: &[u8]) -> Result<(), AuxError>
    requires { length text.now ≤ MAX_TEXT_BYTES }
    ensures { Reads result draft.new (after_lines draft.old 1 (lines_of text.now)) }
{
    let mut number = 1;
    for line in lines_of(text) {
        match enter_line(draft, line) {
            Ok(()) => number += 1,
            Err(Stop::Rule(rule)) => {
                return Err(AuxError::Fault(AuxFault { rule, line: number }));
            }
            Err(Stop::Memory) => return Err(AuxError::Memory),
        }
    }
    Ok(())
}

fn enter_line(draft: &mut Draft, line: &[u8]) -> Result<(), Stop>
    ensures { Enters result draft.new (after_line draft.old line.now) }
{
    match read_line(line) {
        Ok(Some(entry)) => draft.enter(entry),
        Ok(None) => Ok(()),
        Err(rule) => Err(Stop::Rule(rule)),
    }
}
