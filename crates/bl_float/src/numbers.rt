//! Lists of doubles, and numbers at their places.
ghost use Rattle.std.specs.Prelude.{◌≡◌, OnOk, vec_len};

use std::alloc::AllocError;

/// The number at a place, or 0 past the end.
pub(crate) fn at(numbers: &[f64], place: usize) -> f64 {
    match numbers.get(place) {
        Some(x) => *x,
        None => 0.0,
    }
}

/// Sets the number at a place, if there is one.
pub(crate) fn put(numbers: &mut [f64], place: usize, number: f64) {
    if let Some(x) = numbers.get_mut(place) {
        *x = number;
    }
}

/// The row of a row-major table with rows of so many numbers.
pub(crate) fn row_of(table: &[f64], width: usize, row: usize) -> Option<&[f64]> {
    let from = row.saturating_mul(width);
    table.get(from..from.saturating_add(width))
}

/// Makes a list of so many zeros. A list that was as long before takes no memory.
pub(crate) fn set_zeros(list: &mut Vec<f64>, count: usize) -> Result<(), AllocError>
    ensures { OnOk result (vec_len list.new ≡ count) }
{
    list.clear();
    for _ in 0..count {
        list.push(0.0)?;
    }
    Ok(())
}

/// Adds `factor` times each number of the other row to the one at its place.
pub(crate) fn add_multiple(row: &mut [f64], factor: f64, other: &[f64]) {
    for (x, y) in row.iter_mut().zip(other.iter()) {
        *x += factor * *y;
    }
}

/// Writes the numbers of the other row.
pub(crate) fn copy(row: &mut [f64], other: &[f64]) {
    for (x, y) in row.iter_mut().zip(other.iter()) {
        *x = *y;
    }
}
