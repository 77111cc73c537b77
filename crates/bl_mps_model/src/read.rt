//! A whole text.
ghost use Rattle.std.specs.Prelude.{◌≡◌, ◌≤◌, ◌≤ℤ◌, pos, unsigned_abs, IfOk};
ghost use Rattle.bl_limits.specs.declared.TheConstants.{MAX_NUMBER};
ghost use Rattle.bl_raw.specs.Raw.{IsRawModel};
ghost use Rattle.bl_mps_read.specs.Errors.{GivesRead};
ghost use Rattle.bl_mps_model.specs.Model.{mps_read};

use crate::model::model_of;
use bl_limits::MAX_TEXT_BYTES;
use bl_mps_read::{MpsError, fault_at, read_lines};
use bl_mps_terms::MpsRule;
use bl_raw::RawMps;
use std::alloc::Global;

/// What an MPS text says, with this upper bound for each integer column that no line of bounds names.
#[tactic(auto, unfolding(crate::specs::Model::mps_read))]
pub fn read_mps(alloc: Global, bytes: &[u8], default_upper: i64) -> Result<RawMps, MpsError>
    requires { (pos 0 ≤ℤ default_upper) × (unsigned_abs default_upper ≤ MAX_NUMBER) }
    ensures exact { GivesRead (λ mps. mps) result (mps_read default_upper bytes.now) }
    ensures limits { IfOk result IsRawModel }
{
    if bytes.len() > MAX_TEXT_BYTES {
        return Err(fault_at(0, MpsRule::TooLong));
    }
    let reader = read_lines(alloc, bytes)?;
    model_of(alloc, default_upper, &reader)
}
