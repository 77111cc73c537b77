//! Boxes of a model's columns.

ghost use Rattle.std.specs.Prelude.{◌≡◌, ◌↔◌, ◌<◌, length, All, IfOk, IsTrue};
ghost use Rattle.bl_terms.specs.Points.{InArea, IsOnePoint, IsWithinArea, Fixes};
ghost use Rattle.bl_terms.specs.Programs.{root};
ghost use Rattle.bl_model.specs.Boxes.{IsBox};

use crate::bilevel::Bilevel;
use crate::equality::are_same;
use crate::points::lies_in;
use std::alloc::{AllocError, Global};
use std::marker::Model;
use std::sync::Arc;

/// A box: for each column of a model the least and the greatest number. The two lists are shared, so
/// that a half of a box copies one of them alone.
#[derive(Debug, Drop)]
pub struct Box2 {
    pub(crate) lo: Arc<Vec<i64>, Global>,
    pub(crate) hi: Arc<Vec<i64>, Global>,
}

impl Model for Box2 {
    ghost use Rattle.std.specs.Arc.{arc_value};
    ghost use Rattle.bl_terms.specs.Points.{Area, area_code};
    ghost use Rattle.bl_model.specs.Boxes.{IsBox};

    ghost Value = { Area };

    ghost coded = { area_code };

    ghost view = { λ b. record { lo = (arc_value b.lo).items; hi = (arc_value b.hi).items } };

    ghost invariant = { λ b. IsBox (record { lo = (arc_value b.lo).items; hi = (arc_value b.hi).items }) };
}

impl Box2 {
    /// The box of a model: the range of each column.
    pub fn root(alloc: Global, model: &Bilevel) -> Result<Box2, AllocError>
        ensures { IfOk result (λ b. b ≡ root model.now) }
    {
        let lo = Arc::new(alloc, Vec::from_slice(alloc, model.lo())?)?;
        let hi = Arc::new(alloc, Vec::from_slice(alloc, model.hi())?)?;
        Ok(Box2 { lo, hi })
    }

    /// The box with these sides.
    pub fn with_sides(alloc: Global, lo: Vec<i64>, hi: Vec<i64>) -> Result<Box2, AllocError>
        requires { IsBox (record { lo = lo.items; hi = hi.items }) }
        ensures { IfOk result (λ b. b ≡ record { lo = lo.items; hi = hi.items }) }
    {
        let lo = Arc::new(alloc, lo)?;
        let hi = Arc::new(alloc, hi)?;
        Ok(Box2 { lo, hi })
    }

    /// The least number of each column.
    pub fn lo(&self) -> &[i64]
        ensures value { result.now ≡ self.now.lo }
        ensures limits { IsBox self.now }
    {
        &self.lo
    }

    /// The greatest number of each column.
    pub fn hi(&self) -> &[i64]
        ensures value { result.now ≡ self.now.hi }
        ensures limits { IsBox self.now }
    {
        &self.hi
    }

    /// Whether the point lies in the box: one number for each column, each in its range.
    pub fn contains(&self, z: &[i64]) -> bool
        ensures { IsTrue result ↔ InArea self.now z.now }
    {
        lies_in(self.lo(), self.hi(), z)
    }

    /// Whether the box has a single point.
    pub fn single(&self) -> bool
        ensures { IsTrue result ↔ IsOnePoint self.now }
    {
        are_single(self.lo(), self.hi())
    }

    /// Whether the box lies within another one of the same columns.
    pub fn within(&self, outer: &Box2) -> bool
        ensures { IsTrue result ↔ IsWithinArea self.now outer.now }
    {
        lie_within(self.lo(), self.hi(), outer.lo(), outer.hi())
    }

    /// Whether the box leaves a single number to each of these columns.
    pub fn fixes(&self, columns: &[u32]) -> bool
        requires { All (λ k. k < length self.now.lo) columns.now }
        ensures { IsTrue result ↔ Fixes self.now columns.now }
    {
        are_fixed(self.lo(), self.hi(), columns)
    }

    /// Whether the two boxes have the same ranges.
    pub fn is_same(&self, other: &Box2) -> bool
        ensures { IsTrue result ↔ (self.now ≡ other.now) }
    {
        are_same(self.lo(), other.lo()) && are_same(self.hi(), other.hi())
    }
}

/// Whether each range has a single number.
fn are_single(lo: &[i64], hi: &[i64]) -> bool
    requires { length hi.now ≡ length lo.now }
    ensures { IsTrue result ↔ IsOnePoint (record { lo = lo.now; hi = hi.now }) }
{
    for k in 0..lo.len() {
        if lo[k] != hi[k] {
            return false;
        }
    }
    true
}

/// Whether each range lies within the outer one.
fn lie_within(lo: &[i64], hi: &[i64], outer_lo: &[i64], outer_hi: &[i64]) -> bool
    requires sides { length hi.now ≡ length lo.now }
    requires outer_sides { length outer_hi.now ≡ length outer_lo.now }
    ensures { IsTrue result
        ↔ IsWithinArea (record { lo = lo.now; hi = hi.now }) (record { lo = outer_lo.now; hi = outer_hi.now }) }
{
    if lo.len() != outer_lo.len() {
        return false;
    }
    for k in 0..lo.len() {
        if lo[k] < outer_lo[k] || outer_hi[k] < hi[k] {
            return false;
        }
    }
    true
}

/// Whether the ranges of these columns have a single number each.
fn are_fixed(lo: &[i64], hi: &[i64], columns: &[u32]) -> bool
    requires sides { length hi.now ≡ length lo.now }
    requires columns { All (λ k. k < length lo.now) columns.now }
    ensures { IsTrue result ↔ Fixes (record { lo = lo.now; hi = hi.now }) columns.now }
{
    for at in 0..columns.len() {
        let column = columns[at] as usize;
        if lo[column] != hi[column] {
            return false;
        }
    }
    true
}
