//! Numbers of a text that name places.
ghost use Rattle.std.specs.Prelude.{◌≡◌, ◌^◌, pos, ◌≤ℤ◌, unsigned_abs, IfOk};
ghost use Rattle.bl_certtext.specs.Places.{AreBelow, IsPlace};
ghost use Rattle.bl_check_terms.specs.Values.{unit_of as unit_of_pairs};

use std::alloc::{AllocError, Global};

/// The place that a number names.
pub(crate) fn place_of(number: i64) -> usize
    requires { pos 0 ≤ℤ number }
    ensures { result ≡ unsigned_abs number }
{
    number as usize
}

/// The place below 2^32 that a number names.
fn short_place(number: i64) -> u32
    requires { IsPlace (2 ^ 32) number }
    ensures { result ≡ unsigned_abs number }
{
    number as u32
}

/// The numbers of a unit at their places.
pub(crate) fn unit_of(alloc: Global, pairs: &[(i64, i64)]) -> Result<Vec<(u32, i64)>, AllocError>
    requires { AreBelow (2 ^ 32) pairs.now }
    ensures { IfOk result (λ unit. unit.items ≡ unit_of_pairs pairs.now) }
{
    let mut unit = Vec::with_capacity(alloc, pairs.len())?;
    for (place, number) in pairs {
        unit.push((short_place(*place), *number))?;
    }
    Ok(unit)
}
