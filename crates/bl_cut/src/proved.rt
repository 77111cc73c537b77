//! Proved cuts.
ghost use Rattle.std.specs.Prelude.{◌≡◌, ◌↔◌, ◌<◌, ◌≤◌, ◌<ℤ◌, length, map, IsTrue, MatchOption};
ghost use Rattle.std.specs.Arc.{arc_value};
ghost use Rattle.std.specs.Int.{w128};
ghost use Rattle.bl_whole.specs.Sums.{dot};
ghost use Rattle.bl_whole.specs.Within.{PartialDotsFit};
ghost use Rattle.bl_terms.specs.Points.{Meets};
ghost use Rattle.bl_terms.specs.Programs.{InBox};
ghost use Rattle.bl_cut_terms.specs.NoGoods.{cut_of, last_step, step_at};
ghost use Rattle.bl_cut.specs.Cuts.{IsProvedCut, IsValidCut};

use crate::step::CutStep;
use bl_model::{Bilevel, Box2};
use bl_whole::dot_product;
use std::alloc::Global;
use std::marker::Model;
use std::sync::Arc;

/// A no-good cut of a model with all cuts that it uses, each after those that it uses itself: the last of these steps
/// is the cut. Every bilevel feasible point of its box meets its row.
#[derive(Debug, Drop)]
pub struct ProvedCut {
    model: Arc<Bilevel, Global>,
    steps: Vec<Arc<CutStep, Global>>,
}

impl Model for ProvedCut {
    ghost use Rattle.std.specs.Prelude.{map};
    ghost use Rattle.std.specs.Arc.{arc_value};
    ghost use Rattle.bl_cut_terms.specs.NoGoods.{NoGoodCut};
    ghost use Rattle.bl_cut.specs.Cuts.{IsProvedCut};

    ghost Value = { NoGoodCut };

    ghost view = { λ c. record { program = arc_value c.model; steps = map arc_value c.steps.items } };

    ghost invariant = { λ c. IsProvedCut
        (record { program = arc_value c.model; steps = map arc_value c.steps.items }) };
}

impl ProvedCut {
    /// The cut of these steps.
    pub fn make(model: Arc<Bilevel, Global>, steps: Vec<Arc<CutStep, Global>>) -> ProvedCut
        requires { IsProvedCut (record { program = arc_value model; steps = map arc_value steps.items }) }
        ensures { result ≡ record { program = arc_value model; steps = map arc_value steps.items } }
    {
        ProvedCut { model, steps }
    }

    /// The model.
    pub fn model(&self) -> &Arc<Bilevel, Global>
        ensures value { arc_value result.now ≡ self.now.program }
        ensures proved { IsProvedCut self.now }
        ensures valid { IsValidCut self.now }
    {
        &self.model
    }

    /// All steps.
    pub fn steps(&self) -> &[Arc<CutStep, Global>]
        ensures value { map arc_value result.now ≡ self.now.steps }
        ensures proved { IsProvedCut self.now }
        ensures valid { IsValidCut self.now }
    {
        &self.steps
    }

    /// How many steps there are.
    pub fn step_count(&self) -> u32
        ensures value { result ≡ length self.now.steps }
        ensures proved { IsProvedCut self.now }
        ensures valid { IsValidCut self.now }
    {
        self.steps.len() as u32
    }

    /// The step at a place, none past the last.
    pub fn step(&self, place: u32) -> Option<&CutStep>
        ensures value { MatchOption result (length self.now.steps ≤ place)
            (λ s. (place < length self.now.steps) × (s.now ≡ step_at self.now.steps place)) }
        ensures proved { IsProvedCut self.now }
        ensures valid { IsValidCut self.now }
    {
        let place = place as usize;
        if place < self.steps.len() {
            Some(&self.steps[place])
        } else {
            None
        }
    }

    /// The last step: the cut itself.
    pub fn last(&self) -> &CutStep
        ensures value { result.now ≡ last_step self.now.steps }
        ensures proved { IsProvedCut self.now }
        ensures valid { IsValidCut self.now }
    {
        &self.steps[self.steps.len() - 1]
    }

    /// The box on which the cut is valid.
    pub fn area(&self) -> &Arc<Box2, Global>
        ensures value { arc_value result.now ≡ (cut_of self.now).area }
        ensures proved { IsProvedCut self.now }
        ensures valid { IsValidCut self.now }
    {
        self.last().area()
    }

    /// The coefficients of the cut's row, one for each column.
    pub fn coef(&self) -> &[i64]
        ensures value { result.now ≡ (cut_of self.now).row.coef }
        ensures proved { IsProvedCut self.now }
        ensures valid { IsValidCut self.now }
    {
        self.last().coef()
    }

    /// The right-hand side of the cut's row.
    pub fn right(&self) -> i64
        ensures value { result ≡ (cut_of self.now).row.rhs }
        ensures proved { IsProvedCut self.now }
        ensures valid { IsValidCut self.now }
    {
        self.last().right()
    }

    /// Whether a point of the program's box breaks the cut's row.
    pub fn breaks(&self, z: &[i64]) -> bool
        requires { InBox self.now.program z.now }
        ensures { IsTrue result ↔ (¬ Meets (cut_of self.now).row z.now) }
    {
        exceeds(self.coef(), z, self.right())
    }
}

/// Whether the sum of the products is more than `right`.
fn exceeds(coef: &[i64], z: &[i64], right: i64) -> bool
    requires places { length z.now ≡ length coef.now }
    requires fits { PartialDotsFit w128 coef.now z.now }
    ensures { IsTrue result ↔ (right <ℤ dot coef.now z.now) }
{
    i128::from(right) < dot_product(coef, z)
}
