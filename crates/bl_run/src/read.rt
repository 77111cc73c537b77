//! Reading files: the two texts of a model, and a whole certificate.

ghost use Rattle.std.specs.Prelude.{pos, length, IfOk, IfErr, MatchOption};
ghost use Rattle.bl_outer.specs.Files.{Holds, IfTold};
ghost use Rattle.bl_raw.specs.Raw.{IsRawModel, FitsModel};
ghost use Rattle.bl_run.specs.Texts.{IsMpsText, IsMpsFault, IsAuxText, IsAuxFault};
ghost use Rattle.bl_run.specs.Steps.{OnlyCounts, HasText, FailsToRead, NoFault, IsTooLong, IsDefaultUpper};
ghost use Rattle.bl_run.specs.Steps.{AreWithin, ReadsTexts, FailsToReadTexts};

use crate::fault::{aux_fault, mps_fault};
use crate::status::Failure;
use bl_aux::{AuxError, AuxFault, AuxRule};
use bl_limits::MAX_TEXT_BYTES;
use bl_mps::{MpsError, MpsFault, MpsRule};
use bl_outer::{Got, ReadFail, Shelf, read_text};
use bl_raw::{RawAux, RawMps};
use bl_words::ModelWords;
use std::alloc::Global;

const MPS_TOO_LONG: MpsFault = MpsFault {
    rule: MpsRule::TooLong,
    line: 0,
    column: 0,
};

const AUX_TOO_LONG: AuxFault = AuxFault {
    rule: AuxRule::TooLong,
    line: 0,
};

/// What the two texts of a model say.
#[derive(Drop)]
pub(crate) struct Texts {
    pub(crate) mps: RawMps,
    pub(crate) aux: RawAux,
}

/// Reads both texts. The MPS file is read and judged before the auxiliary file is looked for.
pub(crate) fn read_texts<'a, F: Shelf>(
    alloc: Global,
    words: &ModelWords<'a>,
    files: &mut F,
) -> Result<Texts, Failure<'a>>
    requires { IsDefaultUpper words.now.default_upper }
    ensures within { IfOk result AreWithin }
    ensures read { IfOk result (ReadsTexts (F.state files.old).contents words.now) }
    ensures failed { IfErr result (FailsToReadTexts (F.state files.old).contents words.now) }
    ensures counts { OnlyCounts (F.state files.old) (F.state files.new) result }
{
    let mps = read_mps(alloc, files, words.mps, words.default_upper)?;
    let aux = read_aux(alloc, files, words.aux, &mps)?;
    Ok(Texts { mps, aux })
}

/// Reads the model, where the file has it.
fn read_mps<'a, F: Shelf>(
    alloc: Global,
    files: &mut F,
    name: &'a str,
    default_upper: u32,
) -> Result<RawMps, Failure<'a>>
    requires { IsDefaultUpper default_upper }
    ensures limits { IfOk result IsRawModel }
    ensures read { IfOk result (λ mps.
        HasText (F.state files.old).contents name.now (λ text. IsMpsText (pos default_upper) text mps)) }
    ensures failed { IfErr result
        (FailsToRead (F.state files.old).contents name.now (IsMpsFault (pos default_upper))) }
    ensures counts { OnlyCounts (F.state files.old) (F.state files.new) result }
{
    let Some(text) = read_file(alloc, files, name)? else {
        return Err(Failure::Text(name, mps_fault(MPS_TOO_LONG)));
    };
    match bl_mps::read_mps(alloc, &text, i64::from(default_upper)) {
        Ok(mps) => Ok(mps),
        Err(MpsError::Fault(fault)) => Err(Failure::Text(name, mps_fault(fault))),
        Err(MpsError::Memory) => Err(Failure::Memory),
    }
}

/// Reads the follower of the model, where the file has one.
fn read_aux<'a, F: Shelf>(
    alloc: Global,
    files: &mut F,
    name: &'a str,
    mps: &RawMps,
) -> Result<RawAux, Failure<'a>>
    requires { IsRawModel mps.now }
    ensures fits { IfOk result (FitsModel (length mps.now.columns) (length mps.now.rows)) }
    ensures read { IfOk result (λ aux.
        HasText (F.state files.old).contents name.now (λ text. IsAuxText mps.now text aux)) }
    ensures failed { IfErr result (FailsToRead (F.state files.old).contents name.now (IsAuxFault mps.now)) }
    ensures counts { OnlyCounts (F.state files.old) (F.state files.new) result }
{
    let Some(text) = read_file(alloc, files, name)? else {
        return Err(Failure::Text(name, aux_fault(AUX_TOO_LONG)));
    };
    let columns = mps.columns.as_slice().len() as u32;
    let rows = mps.rows.as_slice().len() as u32;
    match bl_aux::read_aux(alloc, &text, columns, rows) {
        Ok(aux) => Ok(aux),
        Err(AuxError::Fault(fault)) => Err(Failure::Text(name, aux_fault(fault))),
        Err(AuxError::Memory) => Err(Failure::Memory),
    }
}

/// Reads the whole file, or nothing where it has more bytes than a text of a model may have.
fn read_file<'a, F: Shelf>(
    alloc: Global,
    files: &mut F,
    name: &'a str,
) -> Result<Option<Vec<u8>>, Failure<'a>>
    ensures read { IfOk result (λ found. MatchOption found
        (HasText (F.state files.old).contents name.now IsTooLong)
        (λ text. IfTold (F.state files.old).contents (λ told. Holds told name.now text.items))) }
    ensures failed { IfErr result (FailsToRead (F.state files.old).contents name.now NoFault) }
    ensures counts { OnlyCounts (F.state files.old) (F.state files.new) result }
{
    let mut text = Vec::new(alloc);
    match read_text(files, name, MAX_TEXT_BYTES as u64, &mut text) {
        Ok(Got::Whole) => Ok(Some(text)),
        Ok(Got::Longer) => Ok(None),
        Ok(Got::Missing) => Err(Failure::Missing(name)),
        Err(ReadFail::Failed) => Err(Failure::ReadFault(name)),
        Err(ReadFail::Memory) => Err(Failure::Memory),
    }
}

/// Reads the whole file, however long it is: there is no memory for more bytes than can be counted.
pub(crate) fn read_whole<'a, F: Shelf>(
    alloc: Global,
    files: &mut F,
    name: &'a str,
) -> Result<Vec<u8>, Failure<'a>>
    ensures read { IfOk result (λ text.
        IfTold (F.state files.old).contents (λ told. Holds told name.now text.items)) }
    ensures failed { IfErr result (FailsToRead (F.state files.old).contents name.now NoFault) }
    ensures counts { OnlyCounts (F.state files.old) (F.state files.new) result }
{
    let mut text = Vec::new(alloc);
    match read_text(files, name, u64::MAX, &mut text) {
        Ok(Got::Whole) => Ok(text),
        Ok(Got::Missing) => Err(Failure::Missing(name)),
        Err(ReadFail::Failed) => Err(Failure::ReadFault(name)),
        Ok(Got::Longer) | Err(ReadFail::Memory) => Err(Failure::Memory),
    }
}
