//! The decimal text of a whole number.
ghost use Rattle.std.specs.Prelude.{◌≡◌, ◌++◌, is_ok, if◌then◌else◌};
ghost use Rattle.std.specs.Fmt.{signed_decimal};

use itoa::Buffer;
use std::alloc::AllocError;

/// Appends the number in plain decimal: `-` only before a number below 0, no leading zero.
pub fn put_whole(into: &mut Vec<u8>, value: i128) -> Result<(), AllocError>
    ensures { into.new.items ≡ (if is_ok result then into.old.items ++ signed_decimal value else into.old.items) }
{
    let mut buffer = Buffer::new();
    into.extend_from_slice(buffer.format(value).as_bytes())
}
