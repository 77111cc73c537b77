//! The relaxation: pivots as long as there are any, and what the last dictionary gives.
ghost use Rattle.std.specs.Prelude.{◌≡◌, ◌<◌, ◌≤◌, ◌+◌, length, IfOk};
ghost use Rattle.bl_terms.specs.Bounds.{Fits};
ghost use Rattle.bl_simplex.specs.Licences.{pivot_limit as pivot_limit_of};
ghost use Rattle.bl_relax.specs.Relaxed.{IsRelaxed};
ghost use Rattle.bl_relax.specs.Runs.{IsRunOfSteps};
ghost use Rattle.bl_relax.specs.Advances.{AdvancesTo};

use crate::choice::next_pivot;
use crate::finish::{finish, pivots_of};
use crate::relaxed::Relaxed;
use bl_bound::Problem;
use bl_licence::{Why, closes, is_feasible, pivot_limit};
use bl_tableau::Tableau;
use std::alloc::{AllocError, Global};

/// How far a tableau has come.
#[derive(Clone, Copy, Debug)]
pub(crate) enum Advance {
    /// One more pivot is taken.
    Taken,
    /// The pivot passed 128 bits, first at this place.
    Wide { row: u32, column: u32 },
    /// There is no pivot to take.
    Last,
}

/// Takes the next pivot, where there is one that is legal and the dictionary doesn't close the box.
fn take_pivot(problem: &Problem<'_>, cutoff: Option<i64>, tableau: &mut Tableau<'_, '_>) -> Advance
    requires run { IsRunOfSteps problem.now cutoff tableau.old }
    requires room { length tableau.old.pivots < tableau.old.most }
    ensures { AdvancesTo problem.now cutoff tableau.old tableau.new result }
{
    let Some(pivot) = next_pivot(tableau, cutoff) else {
        return Advance::Last;
    };
    match tableau.pivot(pivot.0, pivot.1) {
        Ok(()) => Advance::Taken,
        Err(wide) => Advance::Wide {
            row: wide.row,
            column: wide.column,
        },
    }
}

/// The answer after all pivots: what the last dictionary gives, or the licence of so many pivots.
fn last_answer(
    alloc: Global,
    problem: &Problem<'_>,
    cutoff: Option<i64>,
    tableau: &Tableau<'_, '_>,
) -> Result<Relaxed, AllocError>
    requires problem_fits { Fits problem.now }
    requires run { IsRunOfSteps problem.now cutoff tableau.now }
    requires count { length tableau.now.pivots ≡ pivot_limit_of problem.now }
    ensures { IfOk result (IsRelaxed problem.now cutoff) }
{
    if closes(tableau, cutoff) || is_feasible(tableau) {
        return finish(alloc, problem, cutoff, tableau);
    }
    let pivots = pivots_of(alloc, tableau)?;
    Ok(Relaxed::Stuck(Why::Tired { pivots }))
}

/// Relaxes the problem: a proof that closes the box, a whole point of it below the cutoff, or a licence to split it,
/// after at most as many pivots as a relaxation may take.
pub fn relax(
    alloc: Global,
    problem: &Problem<'_>,
    cutoff: Option<i64>,
) -> Result<Relaxed, AllocError>
    requires { Fits problem.now }
    ensures { IfOk result (IsRelaxed problem.now cutoff) }
{
    let most = pivot_limit(problem);
    let mut tableau = Tableau::start(alloc, problem, most)?;
    for taken in 0..most {
        match take_pivot(problem, cutoff, &mut tableau) {
            Advance::Taken => {}
            Advance::Wide { row, column } => {
                let pivots = pivots_of(alloc, &tableau)?;
                return Ok(Relaxed::Stuck(Why::Wide {
                    pivots,
                    row,
                    column,
                }));
            }
            Advance::Last => return finish(alloc, problem, cutoff, &tableau),
        }
    }
    last_answer(alloc, problem, cutoff, &tableau)
}
