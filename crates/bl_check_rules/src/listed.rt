//! The multipliers that a line lists.
ghost use Rattle.std.specs.Prelude.{◌≡◌, ◌<◌, length, slice_set, if◌then◌else◌, IfOk};
ghost use Rattle.bl_check_terms.specs.Values.{multipliers as multipliers_of};
ghost use Rattle.bl_check_rules.specs.Numbers.{numbers_of, with_number};

use bl_bound::Proof;
use bl_model::Listed;
use std::alloc::{AllocError, Global};

/// Puts the number at the index, where it is one of the places.
fn put(numbers: &mut Vec<i64>, index: i64, number: i64)
    ensures { numbers.new.items ≡ with_number numbers.old.items index number }
{
    if 0 <= index && (index as u64) < numbers.len() as u64 {
        numbers[index as usize] = number;
    }
}

/// The numbers at the places below the count, 0 at those that aren't listed; where an index is listed again, the first
/// pair counts.
fn listed_numbers(alloc: Global, count: usize, pairs: &[(i64, i64)]) -> Result<Vec<i64>, AllocError>
    ensures { IfOk result (λ numbers. numbers.items ≡ numbers_of count pairs.now) }
{
    let mut numbers = vec![in alloc; 0i64; count]?;
    let mut left = pairs.len();
    while 0 < left {
        left -= 1;
        let (index, number) = pairs[left];
        put(&mut numbers, index, number);
    }
    Ok(numbers)
}

/// The multipliers of so many rows.
pub fn multipliers(
    alloc: Global,
    count: usize,
    den: i64,
    pairs: &[(i64, i64)],
) -> Result<Proof, AllocError>
    ensures { IfOk result (λ proof. proof ≡ multipliers_of count den pairs.now) }
{
    let mult = listed_numbers(alloc, count, pairs)?;
    Ok(Proof {
        den,
        mult: Listed::new(mult),
    })
}
