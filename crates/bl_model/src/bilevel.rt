//! The bilevel program.

use crate::points::{dot, in_sense, lies_in, meets_all, meets_marked, numbers_at};
use crate::row::BRow;
use std::alloc::{AllocError, Global};
use std::marker::Model;

/// A bilevel program: the leader minimises `cost` and the follower `follower_cost` over integer
/// points from `lo` to `hi` in each column that meet the rows `coef·z <= right`. It has at most
/// `MAX_COLUMNS` columns and `MAX_ROWS` rows.
#[derive(Debug, Drop)]
pub struct Bilevel {
    pub(crate) lo: Vec<i64>,
    pub(crate) hi: Vec<i64>,
    pub(crate) rows: Vec<BRow>,
    pub(crate) cost: Vec<i64>,
    pub(crate) follower_cost: Vec<i64>,
    pub(crate) follower: Vec<u32>,
    pub(crate) links: Vec<u32>,
    pub(crate) sense: i64,
    pub(crate) leader_sense: i64,
}

impl Model for Bilevel {
    ghost use Rattle.bl_terms.specs.Programs.{Program, program_code};

    ghost Value = { Program };

    ghost coded = { program_code };

    ghost use Rattle.bl_model.specs.View.{view_of, IsModel};

    ghost view = { view_of };

    ghost invariant = { λ a. IsModel (view_of a) };
}

impl Bilevel {
    ghost use Rattle.std.specs.Prelude.{◌≡◌, ◌↔◌, IsTrue, IfOk};
    ghost use Rattle.bl_terms.specs.Programs.{InBox, MeetsRows, MeetsLowerRows, cost_at, value_at, follower_at};
    ghost use Rattle.bl_terms.specs.Programs.{link_of};
    ghost use Rattle.bl_terms.specs.Responses.{IsLink};
    ghost use Rattle.bl_model.specs.View.{IsModel};

    /// The least number of each column.
    pub fn lo(&self) -> &[i64]
        ensures lo { result.now ≡ self.now.lo }
        ensures model { IsModel self.now }
    {
        &self.lo
    }

    /// The greatest number of each column.
    pub fn hi(&self) -> &[i64]
        ensures hi { result.now ≡ self.now.hi }
        ensures model { IsModel self.now }
    {
        &self.hi
    }

    /// The rows, in the order of the text: of each row there the right-hand side and then the left-hand one.
    pub fn rows(&self) -> &[BRow]
        ensures rows { result.now ≡ self.now.rows }
        ensures model { IsModel self.now }
    {
        &self.rows
    }

    /// The leader's cost of each column, to be minimised.
    pub fn cost(&self) -> &[i64]
        ensures cost { result.now ≡ self.now.cost }
        ensures model { IsModel self.now }
    {
        &self.cost
    }

    /// The follower's cost of each column, to be minimised; 0 on the leader's columns.
    pub fn follower_cost(&self) -> &[i64]
        ensures follower_cost { result.now ≡ self.now.follower_cost }
        ensures model { IsModel self.now }
    {
        &self.follower_cost
    }

    /// The follower's columns, in rising order.
    pub fn follower(&self) -> &[u32]
        ensures follower { result.now ≡ self.now.follower }
        ensures model { IsModel self.now }
    {
        &self.follower
    }

    /// The linking columns, in rising order: those of the leader that stand in a row of the
    /// follower.
    pub fn links(&self) -> &[u32]
        ensures links { result.now ≡ self.now.links }
        ensures model { IsModel self.now }
    {
        &self.links
    }

    /// 1 where the text's follower minimises, and -1 where it maximises.
    pub fn sense(&self) -> i64
        ensures sense { result ≡ self.now.sense }
        ensures model { IsModel self.now }
    {
        self.sense
    }

    /// 1 where the text's leader minimises, and -1 where it maximises.
    pub fn leader_sense(&self) -> i64
        ensures leader_sense { result ≡ self.now.leader_sense }
        ensures model { IsModel self.now }
    {
        self.leader_sense
    }

    /// Whether the point lies in the box: one number for each column, each in its range.
    pub fn in_box(&self, z: &[i64]) -> bool
        ensures { IsTrue result ↔ InBox self.now z.now }
    {
        lies_in(&self.lo, &self.hi, z)
    }

    /// Whether a point of the box meets all rows.
    pub fn meets_rows(&self, z: &[i64]) -> bool
        requires { InBox self.now z.now }
        ensures { IsTrue result ↔ MeetsRows self.now z.now }
    {
        meets_all(&self.rows, z)
    }

    /// Whether a point of the box meets the follower's rows.
    pub fn meets_lower(&self, z: &[i64]) -> bool
        requires { InBox self.now z.now }
        ensures { IsTrue result ↔ MeetsLowerRows self.now z.now }
    {
        meets_marked(&self.rows, z)
    }

    /// The leader's cost of a point of the box, as it is minimised.
    pub fn cost_of(&self, z: &[i64]) -> i64
        requires { InBox self.now z.now }
        ensures { result ≡ cost_at self.now z.now }
    {
        dot(&self.cost, z)
    }

    /// The leader's cost of a point of the box, in the sense of the text.
    pub fn value_of(&self, z: &[i64]) -> i64
        requires { InBox self.now z.now }
        ensures { result ≡ value_at self.now z.now }
    {
        in_sense(dot(&self.cost, z), self.leader_sense)
    }

    /// The follower's cost of a point of the box, as it is minimised.
    pub fn follower_of(&self, z: &[i64]) -> i64
        requires { InBox self.now z.now }
        ensures { result ≡ follower_at self.now z.now }
    {
        dot(&self.follower_cost, z)
    }

    /// The values of a point of the box on the linking columns, in their order.
    pub fn link_of(&self, alloc: Global, z: &[i64]) -> Result<Vec<i64>, AllocError>
        requires { InBox self.now z.now }
        ensures value { IfOk result (λ l. l.items ≡ link_of self.now z.now) }
        ensures link { IfOk result (λ l. IsLink self.now l.items) }
    {
        numbers_at(alloc, z, &self.links)
    }
}
