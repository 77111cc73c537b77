//! The cuts that were read, and the cut that is being read.
ghost use Rattle.std.specs.Prelude.{[]};
ghost use Rattle.bl_terms.specs.Programs.{Program};
ghost use Rattle.bl_check_state.specs.Saying.{AreCuts};

use bl_cut::CutRow;
use bl_model::Box2;
use std::alloc::Global;
use std::marker::Model;

/// A box, and the row of a cut that is valid there. The row of a cut of which only the box was read has no
/// coefficients yet, and the right-hand side 0.
#[derive(Drop)]
pub struct LocalCut {
    pub area: Box2,
    pub row: CutRow,
}

impl Model for LocalCut {
    ghost use Rattle.bl_cut_terms.specs.NoGoods.{LocalRow};

    ghost Value = { LocalRow };

    ghost view = { λ c. record { area = c.area; row = c.row } };
}

/// The cuts that were read, the last of which may be being read; and of the last one the rows that it adds up, the
/// number of its inverse, how many of its units were read, and its point.
#[derive(Drop)]
pub struct HeldCuts {
    pub cuts: Vec<LocalCut>,
    pub tight: Vec<CutRow>,
    pub den: i64,
    pub units: usize,
    pub point: Vec<i64>,
}

impl HeldCuts {
    /// No cut was read.
    pub fn new(alloc: Global) -> HeldCuts
        ensures { (p : Program) → AreCuts p result [] }
    {
        HeldCuts {
            cuts: Vec::new(alloc),
            tight: Vec::new(alloc),
            den: 1,
            units: 0,
            point: Vec::new(alloc),
        }
    }
}
