//! The best point that a walk has seen.

ghost use Rattle.std.specs.Prelude.{◌≡◌, ◌↔◌, [], ◌<ℤ◌, length, IsTrue, IfSome};
ghost use Rattle.bl_terms.specs.Programs.{InBox, columns as column_count};
ghost use Rattle.bl_plain.specs.Walk.{Among, AnswersAt, Improves};

use bl_model::Bilevel;
use std::marker::Model;

/// The best point so far, and its cost to the leader. There is none where the cost is `None`; what
/// the point holds then has no meaning.
#[derive(Debug, Drop)]
pub(crate) struct Best {
    pub(crate) point: Vec<i64>,
    pub(crate) cost: Option<i64>,
}

impl Model for Best {
    ghost use Rattle.bl_plain.specs.Walk.{Best, best_code};

    ghost Value = { Best };

    ghost coded = { best_code };

    ghost view = { λ b. record { point = b.point.items; cost = b.cost } };
}

/// A point and its cost to the leader, as it is minimised.
#[derive(Debug, Drop)]
pub struct Optimum {
    pub point: Vec<i64>,
    pub cost: i64,
}

impl Model for Optimum {
    ghost use Rattle.bl_plain.specs.Walk.{Costed, costed_code};

    ghost Value = { Costed };

    ghost coded = { costed_code };

    ghost view = { λ o. record { point = o.point.items; cost = o.cost } };
}

impl Best {
    ghost use Rattle.std.specs.Prelude.{◌≡◌};
    ghost use Rattle.bl_plain.specs.Walk.{optimum_of};

    /// The best point, where there is one.
    pub(crate) fn into_optimum(self) -> Option<Optimum>
        ensures { result ≡ optimum_of self }
    {
        let Best { point, cost } = self;
        match cost {
            Some(cost) => Some(Optimum { point, cost }),
            None => None,
        }
    }
}

/// Takes the point where it meets all rows, costs the follower this much, and costs the leader less
/// than the best so far.
pub(crate) fn offer(model: &Bilevel, z: &[i64], least: i64, best: &mut Best)
    requires point { InBox model.now z.now }
    requires room { length best.old.point ≡ column_count model.now }
    ensures best { Improves model.now (Among model.now [] z.now (AnswersAt model.now least)) best.old best.new }
    ensures room { length best.new.point ≡ column_count model.now }
{
    if model.follower_of(z) == least && model.meets_rows(z) {
        let cost = model.cost_of(z);
        if is_below(cost, best.cost) {
            best.point.copy_from_slice(z);
            best.cost = Some(cost);
        }
    }
}

// Whether the cost is less than that of the best so far, or the first.
fn is_below(cost: i64, least: Option<i64>) -> bool
    ensures { IsTrue result ↔ IfSome least (λ before. cost <ℤ before) }
{
    match least {
        Some(before) => cost < before,
        None => true,
    }
}
