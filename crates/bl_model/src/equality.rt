//! Equality of models.
ghost use Rattle.std.specs.Prelude.{◌≡◌, ◌↔◌, IsTrue};
ghost use Rattle.bl_model.specs.Same.{HaveSameCosts};

use crate::bilevel::Bilevel;
use crate::row::BRow;

/// Whether two models are the same in each part.
pub fn same(model: &Bilevel, other: &Bilevel) -> bool
    ensures { IsTrue result ↔ (model.now ≡ other.now) }
{
    has_same_box(model, other)
        && has_same_costs(model, other)
        && has_same_places(model, other)
        && are_same_rows(model.rows(), other.rows())
}

/// Whether two models have the same ranges.
fn has_same_box(model: &Bilevel, other: &Bilevel) -> bool
    ensures { IsTrue result ↔ ((model.now.lo ≡ other.now.lo) × (model.now.hi ≡ other.now.hi)) }
{
    are_same(model.lo(), other.lo()) && are_same(model.hi(), other.hi())
}

/// Whether two models have the same costs and senses.
fn has_same_costs(model: &Bilevel, other: &Bilevel) -> bool
    ensures { IsTrue result ↔ HaveSameCosts model.now other.now }
{
    model.sense() == other.sense()
        && model.leader_sense() == other.leader_sense()
        && are_same(model.cost(), other.cost())
        && are_same(model.follower_cost(), other.follower_cost())
}

/// Whether two models have the same columns of the follower and the same linking columns.
fn has_same_places(model: &Bilevel, other: &Bilevel) -> bool
    ensures { IsTrue result
        ↔ ((model.now.follower ≡ other.now.follower) × (model.now.links ≡ other.now.links)) }
{
    model.follower() == other.follower() && model.links() == other.links()
}

/// Whether two lists of rows are the same.
fn are_same_rows(rows: &[BRow], others: &[BRow]) -> bool
    ensures { IsTrue result ↔ (rows.now ≡ others.now) }
{
    if rows.len() != others.len() {
        return false;
    }
    for i in 0..rows.len() {
        if !is_same_row(&rows[i], &others[i]) {
            return false;
        }
    }
    true
}

fn is_same_row(row: &BRow, other: &BRow) -> bool
    ensures { IsTrue result ↔ (row.now ≡ other.now) }
{
    row.right == other.right && row.lower == other.lower && are_same(&row.coef, &other.coef)
}

/// Whether two lists have the same numbers.
pub(crate) fn are_same(numbers: &[i64], others: &[i64]) -> bool
    ensures { IsTrue result ↔ (numbers.now ≡ others.now) }
{
    numbers == others
}
