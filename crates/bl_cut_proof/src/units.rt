//! Units of items that stand in another order.
ghost use Rattle.std.specs.Prelude.{◌≡◌, ◌<◌, ◌^◌, length, map, IfOk};
ghost use Rattle.bl_cut_terms.specs.Adopting.{multiplier_at as multiplier_of, reordered as reordered_by};

use bl_raw::Listed;
use std::alloc::{AllocError, Global};

/// The multiplier of the item at a place, 0 where the unit doesn't have it.
fn multiplier_at(unit: &[(u32, i64)], place: usize) -> i64
    ensures { result ≡ multiplier_of unit.now place }
{
    for (item, multiplier) in unit {
        if *item as usize == place {
            return *multiplier;
        }
    }
    0
}

/// The unit of the items in this order.
fn reordered(
    alloc: Global,
    unit: &[(u32, i64)],
    order: &[usize],
) -> Result<Vec<(u32, i64)>, AllocError>
    requires { length order.now < 2 ^ 32 }
    ensures { IfOk result (λ terms. terms.items ≡ reordered_by unit.now 0 order.now) }
{
    let mut terms = Vec::new(alloc);
    for place in 0..order.len() {
        let multiplier = multiplier_at(unit, order[place]);
        if multiplier != 0 {
            terms.push((place as u32, multiplier))?;
        }
    }
    Ok(terms)
}

/// The units of the items in this order.
pub(crate) fn reordered_units(
    alloc: Global,
    units: &[Listed<(u32, i64)>],
    order: &[usize],
) -> Result<Vec<Listed<(u32, i64)>>, AllocError>
    requires { length order.now < 2 ^ 32 }
    ensures { IfOk result (λ moved. moved.items ≡ map (λ unit. reordered_by unit 0 order.now) units.now) }
{
    let mut moved = Vec::with_capacity(alloc, units.len())?;
    for unit in units {
        let terms = reordered(alloc, unit.as_slice(), order)?;
        moved.push(Listed::new(terms))?;
    }
    Ok(moved)
}
