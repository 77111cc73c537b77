//! The reader of a whole number.
ghost use Rattle.std.specs.Prelude.{◌≡◌};
ghost use Rattle.bl_num.specs.Numbers.{limited, read_of};

use crate::fault::NumFault;
use crate::magnitude::magnitude;
use crate::parts::{is_number, parts_of};
use bl_limits::MAX_WHOLE;

/// The whole number that the bytes write. Time is linear in the bytes, and no memory is taken, however long the digits
/// and the exponent are.
#[tactic(auto, unfolding(crate::specs::Numbers::read_of))]
pub fn read_whole(bytes: &[u8]) -> Result<i128, NumFault>
    ensures { result ≡ read_of bytes.now }
{
    let parts = parts_of(bytes);
    if !is_number(&parts) {
        return Err(NumFault::NotNumber);
    }
    match magnitude(&parts) {
        Some(magnitude) => limited(parts.negative, magnitude),
        None => Err(NumFault::NotWhole),
    }
}

/// The number with this sign and magnitude, where it is within the limit.
fn limited(negative: bool, magnitude: u128) -> Result<i128, NumFault>
    ensures { result ≡ limited negative (Some magnitude) }
{
    if magnitude > MAX_WHOLE {
        return Err(NumFault::TooLarge { negative });
    }
    let magnitude = magnitude as i128;
    Ok(if negative { -magnitude } else { magnitude })
}
