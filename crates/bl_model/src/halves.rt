//! The two halves of a box.

ghost use Rattle.std.specs.Prelude.{◌≡◌, ◌<◌, ◌+ℤ◌, ◌<ℤ◌, pos, length, slice_set, IfOk};
ghost use Rattle.std.specs.Arc.{arc_value};
ghost use Rattle.bl_limits.specs.declared.TheConstants.{MAX_NUMBER};
ghost use Rattle.bl_whole.specs.Sums.{component};
ghost use Rattle.bl_whole.specs.Within.{AreWithin};
ghost use Rattle.bl_terms.specs.Trees.{CanSplit, low_half, high_half};
ghost use Rattle.bl_model.specs.Boxes.{IsBox};

use crate::boxes::Box2;
use std::alloc::{AllocError, Global};
use std::marker::Model;
use std::sync::Arc;

/// A box that is split at a place of a column: the low half goes up to the place, and the high half
/// begins at the next number.
#[derive(Debug, Drop)]
pub struct Halves {
    parent: Arc<Box2, Global>,
    low: Arc<Box2, Global>,
    high: Arc<Box2, Global>,
    column: u32,
    at: i64,
}

impl Model for Halves {
    ghost use Rattle.std.specs.Prelude.{◌≡◌};
    ghost use Rattle.std.specs.Arc.{arc_value};
    ghost use Rattle.bl_terms.specs.Trees.{low_half, high_half};
    ghost use Rattle.bl_model.specs.Boxes.{Halved, halved_code, IsHalved};

    ghost Value = { Halved };

    ghost coded = { halved_code };

    ghost view = { λ h. record { area = arc_value h.parent; column = h.column; at = h.at } };

    ghost invariant = { λ h. IsHalved (record { area = arc_value h.parent; column = h.column; at = h.at })
        × (arc_value h.low ≡ low_half (arc_value h.parent) h.column h.at)
        × (arc_value h.high ≡ high_half (arc_value h.parent) h.column h.at) };
}

impl Halves {
    /// Splits the box.
    pub fn make(
        alloc: Global,
        parent: Arc<Box2, Global>,
        column: u32,
        at: i64,
    ) -> Result<Halves, AllocError>
        requires { CanSplit (arc_value parent) column at }
        ensures { IfOk result (λ h. h ≡ record { area = arc_value parent; column = column; at = at }) }
    {
        let low = Arc::new(alloc, low_half(alloc, &parent, column as usize, at)?)?;
        let high = Arc::new(alloc, high_half(alloc, &parent, column as usize, at)?)?;
        Ok(Halves {
            parent,
            low,
            high,
            column,
            at,
        })
    }

    /// The box that is split.
    pub fn parent(&self) -> &Arc<Box2, Global>
        ensures value { arc_value result.now ≡ self.now.area }
        ensures split { CanSplit self.now.area self.now.column self.now.at }
    {
        &self.parent
    }

    /// The half up to the place.
    pub fn low(&self) -> &Arc<Box2, Global>
        ensures value { arc_value result.now ≡ low_half self.now.area self.now.column self.now.at }
        ensures split { CanSplit self.now.area self.now.column self.now.at }
    {
        &self.low
    }

    /// The half from the next number on.
    pub fn high(&self) -> &Arc<Box2, Global>
        ensures value { arc_value result.now ≡ high_half self.now.area self.now.column self.now.at }
        ensures split { CanSplit self.now.area self.now.column self.now.at }
    {
        &self.high
    }

    /// The column whose range is split.
    pub fn column(&self) -> u32
        ensures value { result ≡ self.now.column }
        ensures split { CanSplit self.now.area self.now.column self.now.at }
    {
        self.column
    }

    /// The greatest number of the column in the low half.
    pub fn at(&self) -> i64
        ensures value { result ≡ self.now.at }
        ensures split { CanSplit self.now.area self.now.column self.now.at }
    {
        self.at
    }
}

/// The half up to the place: it shares the box's least numbers.
fn low_half(alloc: Global, parent: &Box2, column: usize, at: i64) -> Result<Box2, AllocError>
    requires { CanSplit parent.now column at }
    ensures half { IfOk result (λ half. half ≡ low_half parent.now column at) }
    ensures limits { IsBox parent.now }
{
    let hi = with_number(alloc, parent.hi(), column, at)?;
    Ok(Box2 {
        lo: parent.lo.clone()?,
        hi: Arc::new(alloc, hi)?,
    })
}

/// The half from the next number on: it shares the box's greatest numbers.
fn high_half(alloc: Global, parent: &Box2, column: usize, at: i64) -> Result<Box2, AllocError>
    requires { CanSplit parent.now column at }
    ensures { IfOk result (λ half. half ≡ high_half parent.now column at) }
{
    let lo = with_number(alloc, parent.lo(), column, next(parent.hi(), column, at))?;
    Ok(Box2 {
        lo: Arc::new(alloc, lo)?,
        hi: parent.hi.clone()?,
    })
}

/// The next number below the column's greatest one.
fn next(hi: &[i64], column: usize, at: i64) -> i64
    requires small { AreWithin MAX_NUMBER hi.now }
    requires below { at <ℤ component hi.now column }
    ensures { result ≡ at +ℤ pos 1 }
{
    at + 1
}

/// The numbers with another one in a column.
fn with_number(
    alloc: Global,
    numbers: &[i64],
    column: usize,
    number: i64,
) -> Result<Vec<i64>, AllocError>
    requires { column < length numbers.now }
    ensures { IfOk result (λ v. v.items ≡ slice_set numbers.now column number) }
{
    let mut copy = Vec::from_slice(alloc, numbers)?;
    copy[column] = number;
    Ok(copy)
}
