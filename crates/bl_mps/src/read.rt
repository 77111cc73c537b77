//! The reader of MPS texts.
ghost use Rattle.std.specs.Prelude.{◌≤◌, ◌≤ℤ◌, pos, unsigned_abs, IfOk};
ghost use Rattle.bl_limits.specs.declared.TheConstants.{MAX_NUMBER};
ghost use Rattle.bl_raw.specs.Raw.{IsRawModel};
ghost use Rattle.bl_mps.specs.Read.{IsRead};

use bl_mps_read::MpsError;
use bl_raw::RawMps;
use std::alloc::Global;

/// Reads an MPS text: what it says, or the first rule that it breaks.
///
/// `default_upper` is the upper bound of each integer column that no line under BOUNDS names. A fault has the line,
/// counted from 1, that first breaks a rule given the lines before it, and there the first rule; at line 0 it is of the
/// text as a whole, with its column, counted from 0, where it is one column's. Time is linear in the text, whatever it
/// says.
pub fn read_mps(alloc: Global, bytes: &[u8], default_upper: i64) -> Result<RawMps, MpsError>
    requires { (pos 0 ≤ℤ default_upper) × (unsigned_abs default_upper ≤ MAX_NUMBER) }
    ensures exact { IsRead default_upper bytes.now result }
    ensures limits { IfOk result IsRawModel }
{
    bl_mps_model::read_mps(alloc, bytes, default_upper)
}
