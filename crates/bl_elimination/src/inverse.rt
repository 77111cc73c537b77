//! The inverse of the kept rows, from their identity parts.
ghost use Rattle.std.specs.Prelude.{◌≡◌, ◌+◌, ◌*◌, ◌<◌, ◌≤◌, length, map, IfOk, ◌++◌, [], ◌∷◌, OnOk};
ghost use Rattle.std.specs.List.{range_with_len};
ghost use Rattle.bl_whole.specs.Sums.{component};
ghost use Rattle.bl_elimination.specs.Elimination.{IsGiven, nonzeros as nonzeros_of, small_basis};
ghost use Rattle.bl_elimination.specs.Keeping.{HasShape, IsPlaceOf, unit_numbers};

use crate::basis::{Basis, NoBasis};
use crate::kept::Kept;
use crate::rows::identity_parts;
use bl_licence::whole_multiples;
use bl_limits::MAX_COLUMNS;
use bl_raw::Listed;
use std::alloc::{AllocError, Global};

/// The place of the first number that is `wanted`.
fn place_of(numbers: &[u32], wanted: u32) -> Option<usize>
    ensures { IsPlaceOf numbers.now wanted result }
{
    for i in 0..numbers.len() {
        if numbers[i] == wanted {
            return Some(i);
        }
    }
    None
}

/// Adds the number at a place to the end, with that place, where it isn't 0.
fn push_nonzero(
    pairs: &mut Vec<(u32, i64)>,
    numbers: &[i64],
    place: usize,
) -> Result<(), AllocError>
    requires few { length numbers.now ≤ MAX_COLUMNS }
    requires place_in { place < length numbers.now }
    ensures { OnOk result (pairs.new.items ≡ pairs.old.items ++ nonzeros_of place (component numbers.now place ∷ [])) }
{
    if numbers[place] != 0 {
        pairs.push((place as u32, numbers[place]))?;
    }
    Ok(())
}

/// The numbers other than 0, with their places.
fn nonzeros(alloc: Global, numbers: &[i64]) -> Result<Vec<(u32, i64)>, AllocError>
    requires { length numbers.now ≤ MAX_COLUMNS }
    ensures { IfOk result (λ pairs. pairs.items ≡ nonzeros_of 0 numbers.now) }
{
    let mut pairs = Vec::new(alloc);
    for t in 0..numbers.len() {
        push_nonzero(&mut pairs, numbers, t)?;
    }
    Ok(pairs)
}

/// The unit list of the column: the numbers of its row, so many a row, that aren't 0.
fn unit(
    alloc: Global,
    columns: &[u32],
    numbers: &[i64],
    places: usize,
    column: u32,
) -> Result<Listed<(u32, i64)>, AllocError>
    requires few { places ≤ MAX_COLUMNS }
    requires sizes { length numbers.now ≡ length columns.now * places }
    ensures { IfOk result (λ pairs. pairs ≡ nonzeros_of 0 (unit_numbers columns.now numbers.now places column)) }
{
    let pairs = match place_of(columns, column) {
        Some(i) => nonzeros(alloc, &numbers[i * places..(i + 1) * places])?,
        None => Vec::new(alloc),
    };
    Ok(Listed::new(pairs))
}

/// The unit lists of all columns.
fn units(
    alloc: Global,
    columns: &[u32],
    numbers: &[i64],
    places: usize,
) -> Result<Vec<Listed<(u32, i64)>>, AllocError>
    requires few { places ≤ MAX_COLUMNS }
    requires sizes { length numbers.now ≡ length columns.now * places }
    ensures { IfOk result (λ lists. lists.items
        ≡ map (λ j. nonzeros_of 0 (unit_numbers columns.now numbers.now places j)) (range_with_len 0 places)) }
{
    let mut lists = Vec::new(alloc);
    for j in 0..places {
        lists.push(unit(alloc, columns, numbers, places, j as u32)?)?;
    }
    Ok(lists)
}

/// The basis of the kept rows, of so many columns and candidates.
pub(crate) fn basis(alloc: Global, kept: Kept, columns: usize, count: u32) -> Result<Basis, NoBasis>
    requires few { columns ≤ MAX_COLUMNS }
    requires shape { HasShape (columns + columns) kept }
    ensures exact { IsGiven (small_basis columns count kept) result }
{
    let Kept {
        numbers,
        columns: pivots,
        rows,
    } = kept;
    let parts = identity_parts(alloc, &rows, columns)?;
    let whole = whole_multiples(alloc, &parts)?;
    let Some((den, multiples)) = whole else {
        return Err(NoBasis::TooLarge { position: count });
    };
    let units = units(alloc, pivots.as_slice(), &multiples, columns)?;
    Ok(Basis {
        kept: Listed::new(numbers),
        den: den as i64,
        units: Listed::new(units),
    })
}
