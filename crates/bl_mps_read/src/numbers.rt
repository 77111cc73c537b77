//! Numbers, and numbers beside the names of rows.
ghost use Rattle.std.specs.Prelude.{◌≡◌, ◌≤◌, ◌<◌, ℕ, ◌++◌, ◌∷◌, [], length, OnOk, IfOk, IfSome, None, unsigned_abs};
ghost use Rattle.bl_limits.specs.declared.TheConstants.{MAX_NUMBER, MAX_TEXT_RHS};
ghost use Rattle.bl_mps_terms.specs.Rules.{rule_of, number_within};
ghost use Rattle.bl_mps_read.specs.Numbers.{pair_read, entered, bound_option, AreWithin};
ghost use Rattle.bl_mps_read.specs.Stops.{Makes};
ghost use Rattle.bl_mps_read.specs.Views.{pair_view};

use crate::fields::Pair;
use crate::names::NameTable;
use bl_limits::{MAX_NUMBER, NO_BOUND};
use bl_mps_terms::MpsRule;
use bl_num::{NumFault, read_whole};
use std::alloc::{AllocError, Global};
use std::marker::Model;

/// The rule that a text breaks which isn't a number, or a whole one, or one that is read.
fn rule_of(fault: NumFault) -> MpsRule
    ensures { result ≡ rule_of fault }
{
    match fault {
        NumFault::NotNumber => MpsRule::BadNumber,
        NumFault::NotWhole => MpsRule::NotWhole,
        NumFault::TooLarge { .. } => MpsRule::TooLarge,
    }
}

/// The number that a field writes, of magnitude at most `most`.
pub fn number_within(most: u64, text: &[u8]) -> Result<i64, MpsRule>
    requires { most ≤ MAX_TEXT_RHS }
    ensures value { result ≡ number_within most text.now }
    ensures small { IfOk result (λ number. unsigned_abs number ≤ most) }
{
    match read_whole(text) {
        Ok(number) if number.unsigned_abs() <= most as u128 => Ok(number as i64),
        Ok(_) => Err(MpsRule::TooLarge),
        Err(fault) => Err(rule_of(fault)),
    }
}

/// The bound that a field writes; `None` where the number is too large to bound anything.
pub fn bound_within(text: &[u8]) -> Result<Option<i64>, MpsRule>
    ensures value { result ≡ bound_option text.now }
    ensures small { IfOk result (λ bound. IfSome bound (λ z. unsigned_abs z ≤ MAX_NUMBER)) }
{
    match read_whole(text) {
        Ok(number) if number.unsigned_abs() >= NO_BOUND => Ok(None),
        Ok(number) if number.unsigned_abs() <= MAX_NUMBER as u128 => Ok(Some(number as i64)),
        Ok(_) => Err(MpsRule::TooLarge),
        Err(NumFault::TooLarge { .. }) => Ok(None),
        Err(other) => Err(rule_of(other)),
    }
}

/// The place of a pair's name, and its number of magnitude at most `most`.
pub fn read_pair(names: &NameTable, most: u64, pair: Pair<'_>) -> Result<(usize, i64), MpsRule>
    requires { most ≤ MAX_TEXT_RHS }
    ensures value { result ≡ pair_read names.now most (pair_view pair.entry) }
    ensures within { IfOk result (λ read. read.0 < length names.now) }
    ensures small { IfOk result (λ read. unsigned_abs read.1 ≤ most) }
{
    let place = names.place_of(pair.first).ok_or(MpsRule::UnknownRow)?;
    let number = number_within(most, pair.second)?;
    Ok((place, number))
}

/// At most one number for each row's name, by the place of the name. Contracts see the list.
#[derive(Drop)]
pub struct Numbers {
    by_place: Vec<Option<i64>>,
}

impl Model for Numbers {
    ghost use Rattle.std.specs.Prelude.{List, Option, ℤ};

    ghost Value = { List (Option ℤ) };

    ghost view = { λ numbers. numbers.by_place.items };
}

impl Numbers {
    pub fn new(alloc: Global) -> Numbers
        ensures { result ≡ [] }
    {
        Numbers {
            by_place: Vec::new(alloc),
        }
    }

    pub fn as_slice(&self) -> &[Option<i64>]
        ensures { result.now ≡ self.now }
    {
        &self.by_place
    }

    /// Makes room for one more name, which has no number yet.
    pub fn push_none(&mut self) -> Result<(), AllocError>
        ensures ok { OnOk result (self.new ≡ self.old ++ None ∷ []) }
        ensures small { OnOk result ((most : ℕ) → AreWithin most self.old → AreWithin most self.new) }
    {
        self.by_place.push(None)?;
        Ok(())
    }

    /// Enters a number at a place where there is none yet.
    pub fn enter(&mut self, place: usize, number: i64) -> Result<(), MpsRule>
        requires { place < length self.old }
        ensures places { length self.new ≡ length self.old }
        ensures small { (most : ℕ) → unsigned_abs number ≤ most → AreWithin most self.old → AreWithin most self.new }
        ensures entered { Makes result self.new (entered self.old place number) }
    {
        if self.by_place[place].is_some() {
            return Err(MpsRule::DuplicateEntry);
        }
        self.by_place[place] = Some(number);
        Ok(())
    }
}
