//! The numbers of a column.
ghost use Rattle.std.specs.Prelude.{◌≡◌, All, IfOk, pos, replicate, slice_set};
ghost use Rattle.bl_raw.specs.Raw.{IsSmall};

use std::alloc::{AllocError, Global};
use std::marker::Model;

/// The numbers of a column, one for each slot. Contracts see the list.
#[derive(Drop)]
pub struct Coefficients {
    numbers: Vec<i64>,
}

impl Model for Coefficients {
    ghost use Rattle.std.specs.Prelude.{List, ℤ};

    ghost Value = { List ℤ };

    ghost view = { λ coefficients. coefficients.numbers.items };
}

impl Coefficients {
    /// A 0 at each of so many slots.
    pub fn zeros(alloc: Global, count: usize) -> Result<Coefficients, AllocError>
        ensures zeros { IfOk result (λ coefficients. coefficients ≡ replicate count (pos 0)) }
        ensures small { IfOk result (All IsSmall) }
    {
        Ok(Coefficients {
            numbers: vec![in alloc; 0; count]?,
        })
    }

    pub fn as_slice(&self) -> &[i64]
        ensures { result.now ≡ self.now }
    {
        &self.numbers
    }

    /// Sets the number at a slot, where there is such a slot.
    pub fn set(&mut self, slot: usize, number: i64)
        ensures set { self.new ≡ slice_set self.old slot number }
        ensures small { IsSmall number → All IsSmall self.old → All IsSmall self.new }
    {
        if slot < self.numbers.len() {
            self.numbers[slot] = number;
        }
    }
}
