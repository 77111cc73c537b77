//! Lines from the parts of entries, cuts and leaves.
ghost use Rattle.std.specs.Prelude.{◌≡◌, ◌<◌, ◌^◌, length, map, IfOk};
ghost use Rattle.bl_check_terms.specs.Values.{item_of as item_of_tight, pairs_of as pairs_of_list};
ghost use Rattle.bl_check_terms.specs.Values.{sides_of as sides_of_area};
ghost use Rattle.bl_check_terms.specs.Values.{unit_pairs as pairs_of_unit};

use bl_certline::{CertLine, TightItem};
use bl_cut::Tight;
use bl_model::Box2;
use bl_raw::Listed;
use std::alloc::{AllocError, Global};

/// The numbers, copied.
pub(crate) fn copied(alloc: Global, numbers: &[i64]) -> Result<Listed<i64>, AllocError>
    ensures { IfOk result (λ copy. copy ≡ numbers.now) }
{
    Ok(Listed::new(Vec::from_slice(alloc, numbers)?))
}

/// The numbers other than 0 with their indices.
pub(crate) fn pairs_of(alloc: Global, numbers: &[i64]) -> Result<Listed<(i64, i64)>, AllocError>
    ensures { IfOk result (λ pairs. pairs ≡ pairs_of_list numbers.now) }
{
    let mut pairs = Vec::new(alloc);
    for k in 0..numbers.len() {
        if numbers[k] != 0 {
            pairs.push((k as i64, numbers[k]))?;
        }
    }
    Ok(Listed::new(pairs))
}

/// Both sides for each column.
pub(crate) fn sides_of(alloc: Global, area: &Box2) -> Result<Listed<(i64, i64)>, AllocError>
    ensures { IfOk result (λ sides. sides ≡ sides_of_area area.now) }
{
    let (lo, hi) = (area.lo(), area.hi());
    let mut sides = Vec::with_capacity(alloc, lo.len())?;
    for k in 0..lo.len().min(hi.len()) {
        sides.push((lo[k], hi[k]))?;
    }
    Ok(Listed::new(sides))
}

fn item_of(item: Tight) -> TightItem
    ensures { result ≡ item_of_tight item }
{
    match item {
        Tight::Row(place) => TightItem::Row(i64::from(place)),
        Tight::Upper(place) => TightItem::Upper(i64::from(place)),
        Tight::Lower(place) => TightItem::Lower(i64::from(place)),
        Tight::Cut(place) => TightItem::Cut(i64::from(place)),
    }
}

/// What holds with equality.
pub(crate) fn items_of(alloc: Global, tight: &[Tight]) -> Result<Listed<TightItem>, AllocError>
    ensures items { IfOk result (λ items. items ≡ map item_of_tight tight.now) }
    ensures few { length tight.now < 2 ^ 63 }
{
    let mut items = Vec::with_capacity(alloc, tight.len())?;
    for item in tight {
        items.push(item_of(*item))?;
    }
    Ok(Listed::new(items))
}

/// Places with their numbers.
pub(crate) fn unit_pairs(
    alloc: Global,
    unit: &[(u32, i64)],
) -> Result<Listed<(i64, i64)>, AllocError>
    ensures { IfOk result (λ pairs. pairs ≡ pairs_of_unit unit.now) }
{
    let mut pairs = Vec::with_capacity(alloc, unit.len())?;
    for (place, number) in unit {
        pairs.push((i64::from(*place), *number))?;
    }
    Ok(Listed::new(pairs))
}
