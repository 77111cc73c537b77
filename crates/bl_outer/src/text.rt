//! Reading a whole file.

ghost use Rattle.std.specs.Prelude.{◌≡◌, [], vec_len};
ghost use Rattle.bl_outer.specs.Files.{IfTold, IsPresent};
ghost use Rattle.bl_outer.specs.Shelf.{IsReading, chosen_name, chosen_place, OnlyReads};
ghost use Rattle.bl_outer.specs.declared.text.ReadFail.TheVariants.{Failed, Memory};
ghost use Rattle.bl_outer.specs.Text.{IsRead, HasLength, CountsFailed, CountsMissing};

use crate::shelf::{Found, Shelf, ShelfFail};
use std::alloc::AllocError;

const BLOCK: usize = 16384;

/// What `read_text` read.
#[derive(Clone, Copy, Debug, PartialEq, Eq)]
pub enum Got {
    /// The whole file.
    Whole,
    /// Nothing: there is no file of the name.
    Missing,
    /// The first `limit` bytes of a file that has more.
    Longer,
}

/// Why `read_text` didn't read to the end.
#[derive(Clone, Copy, Debug, PartialEq, Eq)]
pub enum ReadFail {
    /// The shelf failed in `find` or `next`.
    Failed,
    /// No memory was left.
    Memory,
}

impl From<ShelfFail> for ReadFail {
    ghost from_gives = { λ _ e. e ≡ Failed };

    fn from(_fail: ShelfFail) -> ReadFail {
        ReadFail::Failed
    }
}

impl From<AllocError> for ReadFail {
    ghost from_gives = { λ _ e. e ≡ Memory };

    fn from(_error: AllocError) -> ReadFail {
        ReadFail::Memory
    }
}

/// Reads the file of this name, at most `limit` bytes of it, in place of what `into` held.
///
/// It reads blocks of 16,384 bytes. Which file is chosen afterwards is left open.
pub fn read_text<F: Shelf>(
    files: &mut F,
    name: &str,
    limit: u64,
    into: &mut Vec<u8>,
) -> Result<Got, ReadFail>
    ensures text { IfTold (F.state files.old).contents (IsRead result name.now limit into.new.items) }
    ensures length { HasLength result limit (vec_len into.new) }

    ensures reads { OnlyReads (F.state files.old) (F.state files.new) }
    ensures fault { CountsFailed name.now (F.state files.old) (F.state files.new) result }
    ensures missing { CountsMissing (F.state files.old) (F.state files.new) result }
{
    into.clear();
    match files.find(name)? {
        Found::Here => read_on(files, limit, into),
        Found::Missing => Ok(Got::Missing),
    }
}

/// Reads the chosen file from its first byte on.
fn read_on<F: Shelf>(files: &mut F, limit: u64, into: &mut Vec<u8>) -> Result<Got, ReadFail>
    requires reading { IsReading (F.state files.old).mode }
    requires at_front { chosen_place (F.state files.old).mode ≡ 0 }
    requires there { IfTold
        (F.state files.old).contents (λ told. IsPresent told (chosen_name (F.state files.old).mode)) }
    requires empty { into.old.items ≡ [] }

    ensures text { IfTold (F.state files.old).contents
        (IsRead result (chosen_name (F.state files.old).mode) limit into.new.items) }
    ensures length { HasLength result limit (vec_len into.new) }

    ensures reads { OnlyReads (F.state files.old) (F.state files.new) }
    ensures fault { CountsFailed
        (chosen_name (F.state files.old).mode) (F.state files.old) (F.state files.new) result }
    ensures missing { CountsMissing (F.state files.old) (F.state files.new) result }
{
    let mut block = [0u8; BLOCK];
    loop {
        let given = files.next(&mut block)?;
        if given == 0 {
            return Ok(Got::Whole);
        }
        let left = limit - into.len() as u64;
        if given as u64 > left {
            into.extend_from_slice(&block[..left as usize])?;
            return Ok(Got::Longer);
        }
        into.extend_from_slice(&block[..given])?;
    }
}
