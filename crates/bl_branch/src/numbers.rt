//! Numbers at places of lists, and lists of zeros.
use std::alloc::AllocError;

/// The number at a place, or 0 past the end.
pub(crate) fn at(numbers: &[f64], place: usize) -> f64 {
    match numbers.get(place) {
        Some(x) => *x,
        None => 0.0,
    }
}

/// Adds to the number at a place, if there is one.
pub(crate) fn add_at(numbers: &mut [f64], place: usize, number: f64) {
    if let Some(x) = numbers.get_mut(place) {
        *x += number;
    }
}

/// Makes a list as long as this with zeros at its end, if it is shorter.
pub(crate) fn lengthen(list: &mut Vec<f64>, count: usize) -> Result<(), AllocError> {
    for _ in list.len()..count {
        list.push(0.0)?;
    }
    Ok(())
}
