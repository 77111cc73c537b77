//! Licences, and whether one holds.
ghost use Rattle.std.specs.Prelude.{◌↔◌, IsTrue, IfOk};
ghost use Rattle.bl_terms.specs.Bounds.{Fits};
ghost use Rattle.bl_licence.specs.Why.{IsLicence};

use crate::fractional::is_fractional;
use crate::replay::{passes_numbers, passes_pivots, passes_width};
use bl_bound::Problem;
use bl_frac::Frac;
use bl_raw::Listed;
use std::alloc::{AllocError, Global};

/// Why a box is split rather than closed. A pivot is a row and a column of the dictionary where it comes.
#[derive(Debug, Drop)]
pub enum Why {
    /// A point that meets the rows below the cutoff and isn't whole: how far each column is from its start, the end
    /// of its range at which it costs least.
    Fraction(Listed<Frac>),
    /// A point of a model and a response of its follower that costs less there.
    Better {
        point: Listed<i64>,
        response: Listed<i64>,
    },
    /// Legal pivots, the last of which passes 128 bits, first at this row and column.
    Wide {
        pivots: Listed<(u32, u32)>,
        row: u32,
        column: u32,
    },
    /// As many legal pivots as a relaxation may take.
    Tired {
        pivots: Listed<(u32, u32)>,
    },
    /// Legal pivots to a dictionary whose proof or point needs numbers past their limit.
    Large {
        pivots: Listed<(u32, u32)>,
    },
}

/// Whether a licence holds, for every list and place that is handed in. `Better` is false: it is a licence of a node
/// of a model, not of a problem.
pub fn why_holds(
    alloc: Global,
    problem: &Problem<'_>,
    cutoff: Option<i64>,
    why: &Why,
) -> Result<bool, AllocError>
    requires { Fits problem.now }
    ensures { IfOk result (λ b. IsTrue b ↔ IsLicence problem.now cutoff why.now) }
{
    match why {
        Why::Fraction(fractions) => is_fractional(alloc, problem, cutoff, fractions.as_slice()),
        Why::Better { .. } => Ok(false),
        Why::Wide {
            pivots,
            row,
            column,
        } => passes_width(alloc, problem, cutoff, pivots.as_slice(), *row, *column),
        Why::Tired { pivots } => passes_pivots(alloc, problem, cutoff, pivots.as_slice()),
        Why::Large { pivots } => passes_numbers(alloc, problem, cutoff, pivots.as_slice()),
    }
}
