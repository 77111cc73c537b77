//! Rows under elimination.
ghost use Rattle.std.specs.Prelude.{◌≡◌, ◌↔◌, ◌≢◌, ◌+◌, ◌<◌, ◌≤◌, pos, length, map, take, drop, ◌++◌, IfOk, OnOk};
ghost use Rattle.std.specs.Prelude.{OnErr, IsTrue, Some, None, IfSome, [], ◌∷◌, nat_eq, if◌then◌else◌};
ghost use Rattle.std.specs.List.{range_with_len};
ghost use Rattle.std.specs.Option.{ok_or};
ghost use Rattle.bl_simplex.specs.Fractions.{IsReduced, quotient_of, whole_fraction};
ghost use Rattle.bl_simplex.specs.Rationals.{fraction_at};
ghost use Rattle.bl_tableau.specs.Cells.{AreReduced};
ghost use Rattle.bl_elimination.specs.Elimination.{less_multiple as less_multiple_of, less_row, without, divided};
ghost use Rattle.bl_elimination.specs.Elimination.{first_nonzero as first_nonzero_of, candidate as candidate_of};

use bl_frac::{Frac, WideFrac, div, mul, parts, sub, whole};
use std::alloc::{AllocError, Global};
use std::marker::Model;

/// Whether `x` is 0.
fn is_zero(x: Frac) -> bool
    ensures value { IsTrue result ↔ (x.num ≡ pos 0) }
    ensures lowest_terms { IsReduced x }
{
    let (num, _) = parts(x);
    num == 0
}

/// `x` less `factor` times `y`.
fn less_multiple(x: Frac, factor: Frac, y: Frac) -> Result<Frac, WideFrac>
    requires number { IsReduced x }
    requires factor_reduced { IsReduced factor }
    ensures value { result ≡ ok_or (less_multiple_of x factor y) (record {}) }
    ensures lowest_terms { IfOk result IsReduced }
{
    if is_zero(y) {
        return Ok(x);
    }
    sub(x, mul(factor, y)?)
}

/// `x` divided by `pivot`.
fn quotient(x: Frac, pivot: Frac) -> Result<Frac, WideFrac>
    requires divisor { IsReduced pivot }
    requires nonzero { pivot.num ≢ pos 0 }
    ensures value { result ≡ ok_or (quotient_of x pivot) (record {}) }
    ensures lowest_terms { IfOk result IsReduced }
{
    if is_zero(x) {
        return Ok(x);
    }
    div(x, pivot)
}

/// Takes from the numbers `factor` times the others, one for one.
fn take_multiple(numbers: &mut [Frac], factor: Frac, by: &[Frac]) -> Result<(), WideFrac>
    requires sizes { length by.now ≡ length numbers.old }
    requires numbers { AreReduced numbers.old }
    requires factor_reduced { IsReduced factor }
    ensures ok { OnOk result (less_row numbers.old factor by.now ≡ Some numbers.new) }
    ensures err { OnErr result (less_row numbers.old factor by.now ≡ None) }
    ensures lowest_terms { AreReduced numbers.new }
{
    for j in 0..numbers.len() {
        let rest = less_multiple(numbers[j], factor, by[j])?;
        numbers[j] = rest;
    }
    Ok(())
}

/// Takes from the numbers the one at `column` times the others, one for one.
fn reduce_numbers(numbers: &mut [Frac], by: &[Frac], column: usize) -> Result<(), WideFrac>
    requires sizes { length by.now ≡ length numbers.old }
    requires column_in { column < length numbers.old }
    requires numbers { AreReduced numbers.old }
    requires by_reduced { AreReduced by.now }
    ensures ok { OnOk result (without column by.now numbers.old ≡ Some numbers.new) }
    ensures err { OnErr result (without column by.now numbers.old ≡ None) }
    ensures lowest_terms { AreReduced numbers.new }
{
    let factor = numbers[column];
    if is_zero(factor) {
        return Ok(());
    }
    take_multiple(numbers, factor, by)
}

/// Divides the numbers by `pivot`.
fn divide_numbers(numbers: &mut [Frac], pivot: Frac) -> Result<(), WideFrac>
    requires divisor { IsReduced pivot }
    requires nonzero { pivot.num ≢ pos 0 }
    requires numbers { AreReduced numbers.old }
    ensures ok { OnOk result (divided pivot numbers.old ≡ Some numbers.new) }
    ensures err { OnErr result (divided pivot numbers.old ≡ None) }
    ensures lowest_terms { AreReduced numbers.new }
{
    for j in 0..numbers.len() {
        let share = quotient(numbers[j], pivot)?;
        numbers[j] = share;
    }
    Ok(())
}

/// The place of the first number that isn't 0.
fn first_nonzero(numbers: &[Frac]) -> Option<usize>
    ensures value { result ≡ first_nonzero_of numbers.now }
    ensures within { IfSome result (λ j. j < length numbers.now) }
    ensures nonzero { IfSome result (λ j. (fraction_at numbers.now j).num ≢ pos 0) }
{
    for j in 0..numbers.len() {
        if !is_zero(numbers[j]) {
            return Some(j);
        }
    }
    None
}

/// Adds the whole number to the end.
fn push_whole(numbers: &mut Vec<Frac>, number: i64) -> Result<(), AllocError>
    requires numbers { AreReduced numbers.old.items }
    ensures ok { OnOk result (numbers.new.items ≡ numbers.old.items ++ whole_fraction number ∷ []) }
    ensures lowest_terms { AreReduced numbers.new.items }
{
    let last = whole(number);
    let _ = is_zero(last);
    numbers.push(last)?;
    Ok(())
}

/// Adds the whole numbers to the end.
fn push_coefficients(numbers: &mut Vec<Frac>, coef: &[i64]) -> Result<(), AllocError>
    requires numbers { AreReduced numbers.old.items }
    ensures ok { OnOk result (numbers.new.items ≡ numbers.old.items ++ map whole_fraction coef.now) }
    ensures lowest_terms { OnOk result (AreReduced numbers.new.items) }
{
    for j in 0..coef.len() {
        push_whole(numbers, coef[j])?;
    }
    Ok(())
}

/// The number at the place `t` of an identity part.
fn slot_number(t: usize, slot: usize) -> i64
    ensures { result ≡ (if nat_eq t slot then pos 1 else pos 0) }
{
    i64::from(t == slot)
}

/// Adds an identity part of `places` places to the end, with 1 at the slot.
fn push_slot(numbers: &mut Vec<Frac>, places: usize, slot: usize) -> Result<(), AllocError>
    requires numbers { AreReduced numbers.old.items }
    ensures ok { OnOk result (numbers.new.items ≡ numbers.old.items
        ++ map (λ t. whole_fraction (if nat_eq t slot then pos 1 else pos 0)) (range_with_len 0 places)) }
    ensures lowest_terms { OnOk result (AreReduced numbers.new.items) }
{
    for t in 0..places {
        push_whole(numbers, slot_number(t, slot))?;
    }
    Ok(())
}

/// The numbers of a candidate.
fn candidate_numbers(alloc: Global, coef: &[i64], slot: usize) -> Result<Vec<Frac>, AllocError>
    ensures value { IfOk result (λ numbers. numbers.items ≡ candidate_of slot coef.now) }
    ensures lowest_terms { IfOk result (λ numbers. AreReduced numbers.items) }
{
    let mut numbers = Vec::new(alloc);
    push_coefficients(&mut numbers, coef)?;
    push_slot(&mut numbers, coef.len(), slot)?;
    Ok(numbers)
}

/// A row under elimination: its coefficients, and after them its identity part.
#[derive(Debug, Drop)]
pub(crate) struct Row {
    numbers: Vec<Frac>,
}

impl Model for Row {
    ghost use Rattle.std.specs.Prelude.{List};
    ghost use Rattle.bl_simplex.specs.Fractions.{Fraction};
    ghost use Rattle.bl_tableau.specs.Cells.{AreReduced};

    ghost Value = { List Fraction };

    ghost view = { λ row. row.numbers.items };

    ghost invariant = { λ row. AreReduced row.numbers.items };
}

impl Row {
    /// A candidate, with its own place in the identity part.
    pub(crate) fn candidate(alloc: Global, coef: &[i64], slot: usize) -> Result<Row, AllocError>
        ensures value { IfOk result (λ row. row ≡ candidate_of slot coef.now) }
        ensures size { IfOk result (λ row. length row ≡ length coef.now + length coef.now) }
    {
        let numbers = candidate_numbers(alloc, coef, slot)?;
        Ok(Row { numbers })
    }

    /// The column of the first coefficient that isn't 0.
    pub(crate) fn pivot_column(&self, columns: usize) -> Option<usize>
        requires { columns ≤ length self.now }
        ensures value { result ≡ first_nonzero_of (take columns self.now) }
        ensures within { IfSome result (λ c. c < columns) }
        ensures nonzero { IfSome result (λ c. (fraction_at self.now c).num ≢ pos 0) }
    {
        first_nonzero(&self.numbers[..columns])
    }

    /// Takes the entry at `column` away, by a row that has 1 there.
    pub(crate) fn reduce(&mut self, by: &Row, column: usize) -> Result<(), WideFrac>
        requires sizes { length by.now ≡ length self.old }
        requires column_in { column < length self.old }
        ensures ok { OnOk result (without column by.now self.old ≡ Some self.new) }
        ensures err { OnErr result (without column by.now self.old ≡ None) }
        ensures size { length self.new ≡ length self.old }
    {
        reduce_numbers(&mut self.numbers, &by.numbers, column)
    }

    /// Divides the row by its entry at `column`.
    pub(crate) fn divide(&mut self, column: usize) -> Result<(), WideFrac>
        requires column_in { column < length self.old }
        requires nonzero { (fraction_at self.old column).num ≢ pos 0 }
        ensures ok { OnOk result (divided (fraction_at self.old column) self.old ≡ Some self.new) }
        ensures err { OnErr result (divided (fraction_at self.old column) self.old ≡ None) }
        ensures size { length self.new ≡ length self.old }
    {
        let pivot = self.numbers[column];
        divide_numbers(&mut self.numbers, pivot)
    }

    /// Adds the identity part to the end of `parts`.
    pub(crate) fn push_identity(
        &self,
        columns: usize,
        parts: &mut Vec<Frac>,
    ) -> Result<(), AllocError>
        requires within { columns ≤ length self.now }
        requires numbers { AreReduced parts.old.items }
        ensures ok { OnOk result (parts.new.items ≡ parts.old.items ++ drop columns self.now) }
        ensures lowest_terms { AreReduced parts.new.items }
    {
        parts.extend_from_slice(&self.numbers[columns..])
    }
}
