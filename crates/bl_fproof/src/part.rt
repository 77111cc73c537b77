//! Parts of the follower's box.
ghost use Rattle.std.specs.Prelude.{◌≡◌, ◌<◌, ◌↔◌, ◌+ℤ◌, ◌<ℤ◌, pos, length, slice_set, IsTrue, IfOk, MatchOption};
ghost use Rattle.bl_limits.specs.declared.TheConstants.{MAX_NUMBER};
ghost use Rattle.bl_whole.specs.Sums.{component};
ghost use Rattle.bl_whole.specs.Within.{AreWithin};
ghost use Rattle.bl_terms.specs.Points.{IsArea};
ghost use Rattle.bl_terms.specs.Trees.{CanSplit};
ghost use Rattle.bl_fproof.specs.Stacks.{AreHalves, IsPart};

use crate::rows::FollowerRows;
use bl_place::can_split;
use std::alloc::{AllocError, Global};
use std::marker::Model;

/// A box of the follower's columns.
#[derive(Debug, Drop)]
pub struct Part {
    lo: Vec<i64>,
    hi: Vec<i64>,
}

impl Model for Part {
    ghost use Rattle.bl_terms.specs.Points.{Area, area_code};

    ghost Value = { Area };

    ghost coded = { area_code };

    ghost view = { λ p. record { lo = p.lo.items; hi = p.hi.items } };
}

impl Part {
    /// The whole box.
    pub fn whole(alloc: Global, rows: &FollowerRows) -> Result<Part, AllocError>
        ensures whole { IfOk result (λ part. part ≡ rows.now.area) }
        ensures part { IfOk result (IsPart rows.now) }
    {
        let lo = Vec::from_slice(alloc, rows.lo())?;
        let hi = Vec::from_slice(alloc, rows.hi())?;
        Ok(Part { lo, hi })
    }

    pub fn lo(&self) -> &[i64]
        ensures { result.now ≡ self.now.lo }
    {
        &self.lo
    }

    pub fn hi(&self) -> &[i64]
        ensures { result.now ≡ self.now.hi }
    {
        &self.hi
    }

    /// Whether both halves have a number in the column.
    pub fn can_split(&self, column: usize, at: i64) -> bool
        requires { IsArea self.now }
        ensures { IsTrue result ↔ CanSplit self.now column at }
    {
        can_split(&self.lo, &self.hi, column, at)
    }

    /// The lower and the higher half, none where not both of them have a number in the column.
    pub fn halves(
        self,
        alloc: Global,
        column: usize,
        at: i64,
    ) -> Result<Option<(Part, Part)>, AllocError>
        requires area { IsArea self }
        requires small { AreWithin MAX_NUMBER self.hi }
        ensures { IfOk result (λ o. MatchOption o (¬ CanSplit self column at) (AreHalves self column at)) }
    {
        let Part { lo, hi } = self;
        if !can_split(&lo, &hi, column, at) {
            return Ok(None);
        }
        let above = with_number(alloc, &lo, column, above(&hi, column, at))?;
        let below = with_number(alloc, &hi, column, at)?;
        Ok(Some((Part { lo, hi: below }, Part { lo: above, hi })))
    }
}

/// The next place.
fn above(hi: &[i64], column: usize, at: i64) -> i64
    requires small { AreWithin MAX_NUMBER hi.now }
    requires below { at <ℤ component hi.now column }
    ensures { result ≡ at +ℤ pos 1 }
{
    at + 1
}

/// The numbers with another one in a column.
fn with_number(
    alloc: Global,
    numbers: &[i64],
    column: usize,
    number: i64,
) -> Result<Vec<i64>, AllocError>
    requires { column < length numbers.now }
    ensures { IfOk result (λ v. v.items ≡ slice_set numbers.now column number) }
{
    let mut copy = Vec::from_slice(alloc, numbers)?;
    copy[column] = number;
    Ok(copy)
}
