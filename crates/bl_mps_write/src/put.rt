//! The data lines of a text, put at its end.
ghost use Rattle.std.specs.Prelude.{◌≡◌, ◌++◌, OnOk};
ghost use Rattle.bl_mps_write.specs.Canonical.{word_line, number_line};

use bl_num::put_whole;
use std::alloc::AllocError;

/// Adds a line of a space and two words, with a space between them.
pub(crate) fn put_words(text: &mut Vec<u8>, first: &[u8], second: &[u8]) -> Result<(), AllocError>
    ensures { OnOk result (text.new.items ≡ text.old.items ++ word_line first.now second.now) }
{
    text.extend_from_slice(b" ")?;
    text.extend_from_slice(first)?;
    text.extend_from_slice(b" ")?;
    text.extend_from_slice(second)?;
    text.extend_from_slice(b"\n")?;
    Ok(())
}

/// Adds a line of two words and a number.
pub(crate) fn put_number(
    text: &mut Vec<u8>,
    first: &[u8],
    second: &[u8],
    number: i64,
) -> Result<(), AllocError>
    ensures { OnOk result (text.new.items ≡ text.old.items ++ number_line first.now second.now number) }
{
    text.extend_from_slice(b" ")?;
    text.extend_from_slice(first)?;
    text.extend_from_slice(b" ")?;
    text.extend_from_slice(second)?;
    text.extend_from_slice(b" ")?;
    put_whole(text, i128::from(number))?;
    text.extend_from_slice(b"\n")?;
    Ok(())
}
