//! A step of a cut: a box, what shows a cut on it, and the cut's row.
ghost use Rattle.std.specs.Prelude.{◌≡◌};
ghost use Rattle.std.specs.Arc.{arc_value};

use bl_cut_terms::CutParts;
use bl_model::Box2;
use std::alloc::Global;
use std::marker::Model;
use std::sync::Arc;

/// The inequality `coef·z <= right`, with one coefficient for each column.
#[derive(Debug, Drop)]
pub struct CutRow {
    pub coef: Vec<i64>,
    pub right: i64,
}

impl Model for CutRow {
    ghost use Rattle.bl_terms.specs.Points.{Linear, linear_code};

    ghost Value = { Linear };

    ghost coded = { linear_code };

    ghost view = { λ r. record { coef = r.coef.items; rhs = r.right } };
}

/// A cut among those that a cut uses. That its parts show its row is said of a list of steps, in
/// [`ProvedCut`](crate::ProvedCut).
#[derive(Debug, Drop)]
pub struct CutStep {
    area: Arc<Box2, Global>,
    parts: CutParts,
    row: CutRow,
}

impl Model for CutStep {
    ghost use Rattle.std.specs.Arc.{arc_value};
    ghost use Rattle.bl_cut_terms.specs.NoGoods.{CutStep as StepOfCut};

    ghost Value = { StepOfCut };

    ghost view = { λ s. record { area = arc_value s.area; parts = s.parts; row = s.row } };
}

impl CutStep {
    pub fn new(area: Arc<Box2, Global>, parts: CutParts, row: CutRow) -> CutStep
        ensures { result ≡ record { area = arc_value area; parts = parts; row = row } }
    {
        CutStep { area, parts, row }
    }

    /// The box on which the cut is valid.
    pub fn area(&self) -> &Arc<Box2, Global>
        ensures { arc_value result.now ≡ self.now.area }
    {
        &self.area
    }

    /// What shows the cut. An item `Tight::Cut` names a step before this one.
    pub fn parts(&self) -> &CutParts
        ensures { result.now ≡ self.now.parts }
    {
        &self.parts
    }

    /// The coefficients of the cut's row.
    pub fn coef(&self) -> &[i64]
        ensures { result.now ≡ self.now.row.coef }
    {
        &self.row.coef
    }

    /// The right-hand side of the cut's row.
    pub fn right(&self) -> i64
        ensures { result ≡ self.now.row.rhs }
    {
        self.row.right
    }
}
