//! Numbers and marks by place.

ghost use Rattle.std.specs.Prelude.{◌≡◌, ◌<◌, ◌^◌, false, length, map, All, IfOk, slice_index_or};
ghost use Rattle.std.specs.List.{range_with_len};
ghost use Rattle.bl_terms.specs.Points.{is_among};
ghost use Rattle.bl_terms.specs.Programs.{places_where};
ghost use Rattle.bl_model.specs.Build.{number_for};

use std::alloc::{AllocError, Global};

/// As many numbers as `count` says, 0 but for those that the pairs put at a place. Where two pairs name one
/// place the first counts, so they are taken from the last on.
pub(crate) fn numbers(
    alloc: Global,
    count: usize,
    pairs: &[(u32, i64)],
) -> Result<Vec<i64>, AllocError>
    requires { All (λ e. e.0 < count) pairs.now }
    ensures { IfOk result (λ v. v.items ≡ map (number_for pairs.now) (range_with_len 0 count)) }
{
    let mut values = vec![in alloc; 0; count]?;
    for at in (0..pairs.len()).rev() {
        let (place, value) = pairs[at];
        values[place as usize] = value;
    }
    Ok(values)
}

/// As many marks as `count` says, set at the places, from the last on like numbers.
pub(crate) fn marks(alloc: Global, count: usize, places: &[u32]) -> Result<Vec<bool>, AllocError>
    requires { All (λ p. p < count) places.now }
    ensures { IfOk result (λ v. v.items ≡ map (λ k. is_among k places.now) (range_with_len 0 count)) }
{
    let mut marks = vec![in alloc; false; count]?;
    for at in (0..places.len()).rev() {
        marks[places[at] as usize] = true;
    }
    Ok(marks)
}

/// The places of the marks that are set, in rising order.
pub(crate) fn marked(alloc: Global, marks: &[bool]) -> Result<Vec<u32>, AllocError>
    requires { length marks.now < 2 ^ 32 }
    ensures { IfOk result (λ v. v.items ≡ places_where (λ k. slice_index_or marks.now k false) (length marks.now)) }
{
    let mut places = Vec::new(alloc);
    for (place, is_set) in marks.iter().enumerate() {
        if *is_set {
            places.push(place as u32)?;
        }
    }
    Ok(places)
}
