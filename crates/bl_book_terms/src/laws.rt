//! Laws of runs, whoever enters their steps and in whatever order.
ghost use Rattle.bl_book_terms.specs.Laws.{EveryRunIsSound, FinishedRunAnswers, RoomIsLeft, BestNeverRises};
ghost use Rattle.bl_book_terms.specs.Laws.{ClaimIsLast};

/// What holds of the book after each step of every run.
pub fn every_run_is_sound()
    ensures { EveryRunIsSound }
{}

/// A book without live leaves has the answer: its incumbent is optimal, and without one no point is bilevel feasible.
pub fn finished_run_answers()
    ensures { FinishedRunAnswers }
{}

/// Where a live leaf has several points, two more nodes are fewer than twice the points of the whole box.
pub fn room_is_left()
    ensures { RoomIsLeft }
{}

/// The best value of a book never rises.
pub fn best_never_rises()
    ensures { BestNeverRises }
{}

/// What a claimed node keeps is the best value at its last claim.
pub fn claim_is_last()
    ensures { ClaimIsLast }
{}
