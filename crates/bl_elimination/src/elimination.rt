//! The elimination.
ghost use Rattle.bl_limits.specs.declared.TheConstants.{MAX_COLUMNS};
ghost use Rattle.bl_terms.specs.Bounds.{IsProblem};
ghost use Rattle.bl_elimination.specs.Elimination.{IsGiven, elimination};
ghost use Rattle.bl_elimination.specs.Inverses.{IsBasis};
ghost use Rattle.std.specs.Prelude.{◌≤◌, ◌<◌, ◌^◌, length, IfOk};

use crate::basis::{Basis, NoBasis};
use crate::inverse::basis;
use crate::kept::kept_rows;
use bl_bound::Problem;
use std::alloc::Global;

/// The basis of the problem's rows, which are the candidates in their order: the first of them that are linearly
/// independent, as many as there are columns. The right-hand sides, the cost and the box count for nothing.
pub fn eliminate(alloc: Global, candidates: &Problem<'_>) -> Result<Basis, NoBasis>
    requires shape { IsProblem candidates.now }
    requires few_columns { length candidates.now.cost ≤ MAX_COLUMNS }
    requires few_rows { length candidates.now.rows < 2 ^ 32 }
    ensures exact { IsGiven (elimination candidates.now) result }
    ensures inverse { IfOk result (IsBasis candidates.now) }
{
    let columns = candidates.cost().len();
    let rows = candidates.rows();
    let kept = kept_rows(alloc, rows, columns)?;
    basis(alloc, kept, columns, rows.len() as u32)
}
