//! Whether steps are the same.
ghost use Rattle.std.specs.Prelude.{◌≡◌, ◌↔◌, IsTrue};

use crate::items::{kind_of, place_of};
use bl_cut::{CutParts, CutStep, Tight};
use bl_raw::Listed;

fn same_numbers(numbers: &[i64], others: &[i64]) -> bool
    ensures { IsTrue result ↔ (numbers.now ≡ others.now) }
{
    numbers == others
}

fn same_item(item: Tight, other: Tight) -> bool
    ensures { IsTrue result ↔ (item ≡ other) }
{
    kind_of(item) == kind_of(other) && place_of(item) == place_of(other)
}

fn same_items(items: &[Tight], others: &[Tight]) -> bool
    ensures { IsTrue result ↔ (items.now ≡ others.now) }
{
    if items.len() != others.len() {
        return false;
    }
    for k in 0..items.len() {
        if !same_item(items[k], others[k]) {
            return false;
        }
    }
    true
}

fn same_term(term: (u32, i64), other: (u32, i64)) -> bool
    ensures { IsTrue result ↔ (term ≡ other) }
{
    term.0 == other.0 && term.1 == other.1
}

fn same_unit(unit: &[(u32, i64)], other: &[(u32, i64)]) -> bool
    ensures { IsTrue result ↔ (unit.now ≡ other.now) }
{
    if unit.len() != other.len() {
        return false;
    }
    for k in 0..unit.len() {
        if !same_term(unit[k], other[k]) {
            return false;
        }
    }
    true
}

fn same_units(units: &[Listed<(u32, i64)>], others: &[Listed<(u32, i64)>]) -> bool
    ensures { IsTrue result ↔ (units.now ≡ others.now) }
{
    if units.len() != others.len() {
        return false;
    }
    for k in 0..units.len() {
        if !same_unit(units[k].as_slice(), others[k].as_slice()) {
            return false;
        }
    }
    true
}

/// Whether two cuts have the same parts.
pub(crate) fn same_parts(parts: &CutParts, others: &CutParts) -> bool
    ensures { IsTrue result ↔ (parts.now ≡ others.now) }
{
    parts.den == others.den
        && same_items(parts.tight.as_slice(), others.tight.as_slice())
        && same_units(parts.units.as_slice(), others.units.as_slice())
        && same_numbers(parts.point.as_slice(), others.point.as_slice())
        && same_numbers(parts.response.as_slice(), others.response.as_slice())
}

/// Whether two steps have the same box, parts and row.
pub(crate) fn same_step(step: &CutStep, other: &CutStep) -> bool
    ensures { IsTrue result ↔ (step.now ≡ other.now) }
{
    step.right() == other.right()
        && same_numbers(step.coef(), other.coef())
        && step.area().is_same(other.area())
        && same_parts(step.parts(), other.parts())
}
