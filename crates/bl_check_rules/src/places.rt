//! Values at places.
ghost use Rattle.std.specs.Prelude.{◌≡◌, ◌<◌, length, All, IfOk};
ghost use Rattle.bl_terms.specs.Points.{values_at as values_at_places};

use std::alloc::{AllocError, Global};

/// The values at these places, in their order.
pub(crate) fn values_at(
    alloc: Global,
    values: &[i64],
    places: &[u32],
) -> Result<Vec<i64>, AllocError>
    requires { All (λ k. k < length values.now) places.now }
    ensures { IfOk result (λ picked. picked.items ≡ values_at_places values.now places.now) }
{
    let mut picked = Vec::with_capacity(alloc, places.len())?;
    for place in places {
        picked.push(values[*place as usize])?;
    }
    Ok(picked)
}
