//! The follower's problem at a link.
ghost use Rattle.std.specs.Prelude.{◌≡◌, ◌++◌, IsTrue, IfOk, OnOk, length};
ghost use Rattle.bl_terms.specs.Points.{IsArea, IsWithinArea, values_at};
ghost use Rattle.bl_terms.specs.Bounds.{Fits, over};
ghost use Rattle.bl_terms.specs.Responses.{IsLink};
ghost use Rattle.bl_terms.specs.FollowerProofs.{follower_row, follower_rows};
ghost use Rattle.bl_model.specs.View.{IsModel};
ghost use Rattle.bl_fproof.specs.Entries.{whole_problem};
ghost use Rattle.bl_fproof.specs.Points.{IsShort};

use crate::picked::{dot_at, picked};
use bl_bound::Problem;
use bl_model::{BRow, Bilevel};
use std::alloc::{AllocError, Global};
use std::marker::Model;

/// A row of the follower over its own columns, with the link put in.
#[derive(Debug, Drop)]
pub struct FollowerRow {
    coef: Vec<i64>,
    rhs: i64,
}

impl Model for FollowerRow {
    ghost use Rattle.bl_terms.specs.Points.{Linear, linear_code};

    ghost Value = { Linear };

    ghost coded = { linear_code };

    ghost view = { λ r. record { coef = r.coef.items; rhs = r.rhs } };
}

/// The follower's problem at a link: its rows with the link put in, its cost and the box of its
/// columns. It is made once for each link and lends the problem over parts of that box.
#[derive(Debug, Drop)]
pub struct FollowerRows {
    rows: Vec<FollowerRow>,
    cost: Vec<i64>,
    lo: Vec<i64>,
    hi: Vec<i64>,
}

impl Model for FollowerRows {
    ghost use Rattle.bl_terms.specs.Bounds.{Problem as BoundedProblem, Fits};

    ghost Value = { BoundedProblem };

    ghost view = { λ p. record
        { rows = p.rows.items; cost = p.cost.items; area = record { lo = p.lo.items; hi = p.hi.items } } };

    ghost invariant = { λ p. Fits (record
        { rows = p.rows.items; cost = p.cost.items; area = record { lo = p.lo.items; hi = p.hi.items } }) };
}

/// A row of the model over the follower's columns.
fn row_at_link(
    alloc: Global,
    model: &Bilevel,
    link: &[i64],
    row: &BRow,
) -> Result<FollowerRow, AllocError>
    requires link { IsLink model.now link.now }
    requires row { IsShort model.now row.now }
    ensures { IfOk result (λ r. r ≡ follower_row model.now link.now row.now) }
{
    let coef = picked(alloc, &row.coef, model.follower())?;
    let rhs = row.right - dot_at(&row.coef, model.links(), link);
    Ok(FollowerRow { coef, rhs })
}

/// The follower's rows among those of the model.
fn rows_at_link(
    alloc: Global,
    model: &Bilevel,
    link: &[i64],
) -> Result<Vec<FollowerRow>, AllocError>
    requires { IsLink model.now link.now }
    ensures { IfOk result (λ rows. rows.items ≡ follower_rows model.now link.now model.now.rows) }
{
    let mut rows = Vec::new(alloc);
    for row in model.rows() {
        if row.lower {
            rows.push(row_at_link(alloc, model, link, row)?)?;
        }
    }
    Ok(rows)
}

impl FollowerRows {
    /// The follower's problem at the link, which has a value for each linking column in its range.
    pub fn make(alloc: Global, model: &Bilevel, link: &[i64]) -> Result<FollowerRows, AllocError>
        requires { IsLink model.now link.now }
        ensures rows { IfOk result (λ rows. rows ≡ whole_problem model.now link.now) }
        ensures model { IfOk result (λ _. IsModel model.now) }
    {
        let rows = rows_at_link(alloc, model, link)?;
        let columns = model.follower();
        let cost = picked(alloc, model.follower_cost(), columns)?;
        let lo = picked(alloc, model.lo(), columns)?;
        let hi = picked(alloc, model.hi(), columns)?;
        Ok(FollowerRows { rows, cost, lo, hi })
    }

    /// The problem over a part of the box. No row is copied.
    pub fn problem<'a>(
        &'a self,
        alloc: Global,
        lo: &'a [i64],
        hi: &'a [i64],
    ) -> Result<Problem<'a>, AllocError>
        requires area { IsArea (record { lo = lo.now; hi = hi.now }) }
        requires within { IsWithinArea (record { lo = lo.now; hi = hi.now }) self.now.area }
        ensures value { IfOk result (λ q. q ≡ over self.now (record { lo = lo.now; hi = hi.now })) }
        ensures fits { Fits (over self.now (record { lo = lo.now; hi = hi.now })) }
    {
        let mut problem = Problem::start(alloc, &self.cost, lo, hi);
        for row in &self.rows {
            problem.row(&row.coef, row.rhs)?;
        }
        Ok(problem)
    }

    /// The follower's cost of each of his columns.
    pub fn cost(&self) -> &[i64]
        ensures value { result.now ≡ self.now.cost }
        ensures fits { Fits self.now }
    {
        &self.cost
    }

    /// The least number of each of the follower's columns.
    pub fn lo(&self) -> &[i64]
        ensures value { result.now ≡ self.now.area.lo }
        ensures fits { Fits self.now }
    {
        &self.lo
    }

    /// The greatest number of each of the follower's columns.
    pub fn hi(&self) -> &[i64]
        ensures value { result.now ≡ self.now.area.hi }
        ensures fits { Fits self.now }
    {
        &self.hi
    }
}
