//! The box that a tree of a certificate has reached.
ghost use Rattle.std.specs.Prelude.{◌≡◌, ◌<◌, ◌≤◌, ℕ, pos, length, MatchOption};
ghost use Rattle.bl_terms.specs.Trees.{CanSplit};
ghost use Rattle.bl_certtext.specs.Places.{IsPlace, SplitsAt};

use bl_limits::MAX_COLUMNS;
use bl_model::{Bilevel, Box2, Halves};
use std::alloc::{AllocError, Global};
use std::marker::Model;
use std::sync::Arc;

/// A box of a model's columns, that of a node of a tree. Contracts see the box.
#[derive(Drop)]
pub struct Region {
    area: Arc<Box2, Global>,
}

impl Model for Region {
    ghost use Rattle.std.specs.Arc.{arc_value};
    ghost use Rattle.bl_terms.specs.Points.{Area, area_code};

    ghost Value = { Area };

    ghost coded = { area_code };

    ghost view = { λ a. arc_value a.area };
}

impl Region {
    ghost use Rattle.std.specs.Arc.{arc_value};
    ghost use Rattle.std.specs.Prelude.{◌≡◌, IfOk, MatchOption};
    ghost use Rattle.bl_terms.specs.Programs.{root};
    ghost use Rattle.bl_certtext.specs.Places.{AreHalves, SplitsAt};

    /// The box of the model.
    pub(crate) fn root(alloc: Global, model: &Bilevel) -> Result<Region, AllocError>
        ensures { IfOk result (λ a. a ≡ root model.now) }
    {
        Ok(Region {
            area: Arc::new(alloc, Box2::root(alloc, model)?)?,
        })
    }

    pub fn area(&self) -> &Arc<Box2, Global>
        ensures { arc_value result.now ≡ self.now }
    {
        &self.area
    }

    /// The two halves of the box; `None` where the place doesn't split it at the column that the number names.
    pub(crate) fn halves(
        self,
        alloc: Global,
        column: i64,
        at: i64,
    ) -> Result<Option<(Region, Region)>, AllocError>
        ensures { IfOk result (λ o. MatchOption o (¬ SplitsAt self column at) (λ h. AreHalves self column at h.0 h.1)) }
    {
        let Region { area } = self;
        let Some(place) = split_place(area.lo(), area.hi(), column, at) else {
            return Ok(None);
        };
        let halves = Halves::make(alloc, area, place, at)?;
        let low = halves.low().clone()?;
        let high = halves.high().clone()?;
        Ok(Some((Region { area: low }, Region { area: high })))
    }
}

/// The place that the number names.
fn place_of(count: usize, number: i64) -> Option<u32>
    requires { count ≤ MAX_COLUMNS }
    ensures { MatchOption result (¬ IsPlace count number) (λ k. (k < count) × (number ≡ pos k)) }
{
    if number < 0 || number as u64 >= count as u64 {
        return None;
    }
    Some(number as u32)
}

/// The column that the number names, where the place splits the box there.
fn split_place(lo: &[i64], hi: &[i64], column: i64, at: i64) -> Option<u32>
    requires sides { length hi.now ≡ length lo.now }
    requires few { length lo.now ≤ MAX_COLUMNS }
    ensures { MatchOption result (¬ SplitsAt (record { lo = lo.now; hi = hi.now }) column at)
        (λ k. (column ≡ pos k) × CanSplit (record { lo = lo.now; hi = hi.now }) k at) }
{
    let place = place_of(lo.len(), column)?;
    if lo[place as usize] <= at && at < hi[place as usize] {
        Some(place)
    } else {
        None
    }
}
