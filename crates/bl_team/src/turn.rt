//! A turn of one worker.
ghost use Rattle.std.specs.Prelude.{◌≤◌, ℕ, IfOk, OnOk};
ghost use Rattle.bl_book_terms.specs.Books.{Ready, HasStatus};
ghost use Rattle.bl_team.specs.Turns.{IsIdle, IsAtWork, IsBegun, IsBegunWith, IsTurnOver, IsTurn, IsLeafFor};
ghost use Rattle.bl_team.specs.Turns.{IsDivisionFor};

use bl_core::{Book, Ended, SplitFail, TaskFail};
use bl_cut::Cuts;
use bl_model::Halves;
use bl_node::{Scratches, Source, WorkFail, Worked, work_with};
use bl_tree::{ProvedLeaf, ProvedWhy, Task};
use std::alloc::{AllocError, Global};

/// The number of the only worker.
const ALONE: u32 = 0;

/// What became of a node in a turn.
#[derive(Debug, Drop)]
pub(crate) enum Turn {
    Closed,
    /// It was split into these nodes.
    Divided { low: u32, high: u32 },
    /// A limit is spent, so that the search ends.
    Ended(Ended),
}

/// Claims a node that is ready.
fn claim(book: &mut Book, node: u32) -> Result<(), AllocError>
    requires idle { IsIdle book.old.ledger.book }
    requires ready { HasStatus book.old.ledger.book node Ready }
    ensures { OnOk result (IsBegun book.old.ledger.book node book.new.ledger.book) }
{
    book.make_room()?;
    match book.claim(ALONE, node) {
        Ok(()) => Ok(()),
        Err(_) => unreachable!(),
    }
}

/// Claims a node that is ready, and gives its task.
fn begin(book: &mut Book, node: u32) -> Result<Task, AllocError>
    requires idle { IsIdle book.old.ledger.book }
    requires ready { HasStatus book.old.ledger.book node Ready }
    ensures { IfOk result (λ task. IsBegunWith book.old.ledger.book node task book.new.ledger.book) }
{
    claim(book, node)?;
    let _kept = book.limit();
    match book.task_of(ALONE, node) {
        Ok(task) => Ok(task),
        Err(TaskFail::NotYours { .. }) => unreachable!(),
        Err(TaskFail::Memory) => Err(AllocError),
    }
}

/// Closes the node that is claimed.
fn close(book: &mut Book, node: u32, leaf: ProvedLeaf)
    requires spare { 1 ≤ book.old.spare }
    requires work { IsAtWork book.old.ledger.book node }
    requires leaf { IsLeafFor book.old.ledger.book node leaf }
    ensures { IsTurnOver book.old.ledger.book book.new.ledger.book }
{
    match book.close(ALONE, node, leaf) {
        Ok(()) => {}
        Err(_) => unreachable!(),
    }
}

/// Splits the node that is claimed. Where the book is full the search ends.
fn split(book: &mut Book, node: u32, halves: Halves, why: ProvedWhy, cuts: Cuts) -> Turn
    requires spare { 1 ≤ book.old.spare }
    requires work { IsAtWork book.old.ledger.book node }
    requires division { IsDivisionFor book.old.ledger.book node halves why }
    ensures { (n : ℕ) → IsTurn n book.old.ledger.book result book.new.ledger }
{
    let _halves = halves.parent();
    let _licence = why.model();
    let _kept = book.limit();
    match book.split(ALONE, node, halves, why, cuts) {
        Ok((low, high)) => Turn::Divided { low, high },
        Err(SplitFail::Full { why, .. }) => Turn::Ended(Ended::Nodes { node, why }),
        Err(SplitFail::NotYours { .. }) => unreachable!(),
        Err(SplitFail::OtherModel) => unreachable!(),
        Err(SplitFail::OtherBox) => unreachable!(),
        Err(SplitFail::OldCutoff { .. }) => unreachable!(),
    }
}

/// Works on a node that is ready.
pub(crate) fn take_turn<S: Source>(
    alloc: Global,
    book: &mut Book,
    node: u32,
    pool: &mut S,
    follower_nodes: u32,
    scratches: &mut Scratches,
) -> Result<Turn, AllocError>
    requires idle { IsIdle book.old.ledger.book }
    requires ready { HasStatus book.old.ledger.book node Ready }
    requires follower { 1 ≤ follower_nodes }
    ensures { IfOk result (λ turn. IsTurn follower_nodes book.old.ledger.book turn book.new.ledger) }
{
    let task = begin(book, node)?;
    let worked = work_with(alloc, &task, pool, follower_nodes, scratches);
    book.make_room()?;
    match worked {
        Ok(Worked::Close { leaf, .. }) => {
            close(book, node, leaf);
            Ok(Turn::Closed)
        }
        Ok(
            Worked::Divide {
                halves,
                why,
                cuts,
                ..
            },
        ) => Ok(split(book, node, halves, why, cuts)),
        Err(WorkFail::FollowerSpent(spent)) => {
            let _exhausted = spent.budget();
            Ok(Turn::Ended(Ended::Follower(spent)))
        }
        Err(WorkFail::Memory) => Err(AllocError),
    }
}
