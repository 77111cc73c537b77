//! One worker.
ghost use Rattle.std.specs.Prelude.{◌≤◌, IfOk, MatchOption};
ghost use Rattle.std.specs.Arc.{arc_value};
ghost use Rattle.bl_book_terms.specs.Books.{Ready, HasStatus, IsFinished};
ghost use Rattle.bl_team.specs.Answers.{AreSettings, IsOutcomeFor};
ghost use Rattle.bl_team.specs.Turns.{IsIdle, IsEnd};

use crate::settings::Settings;
use crate::turn::{Turn, take_turn};
use bl_core::{Book, Ended, Outcome};
use bl_limits::MAX_POOL_ENTRIES;
use bl_model::Bilevel;
use bl_node::{Scratches, Source};
use bl_pool::Pool;
use bl_tree::State;
use std::alloc::{AllocError, Global};
use std::sync::Arc;

/// The next node to work on: the one that leads the branching best, if it is ready, else the first one that is ready at
/// all.
fn next_node(book: &Book, scratches: &mut Scratches) -> Option<u32>
    requires { IsIdle book.now.ledger.book }
    ensures { MatchOption result (IsFinished book.now.ledger.book)
        (λ node. HasStatus book.now.ledger.book node Ready) }
{
    if let Some(node) = scratches.next_node() {
        if let Some(State::Ready) = book.state(node) {
            return Some(node);
        }
    }
    book.next_ready(0)
}

/// Works on nodes until none is left, or a limit is spent. The node of least bound comes next.
fn search<S: Source>(
    alloc: Global,
    mut book: Book,
    pool: &mut S,
    follower_nodes: u32,
) -> Result<Outcome, AllocError>
    requires idle { IsIdle book.ledger.book }
    requires follower { 1 ≤ follower_nodes }
    ensures { IfOk result (λ o. IsEnd follower_nodes book.ledger.book o.book.ledger o.end) }
{
    let mut scratches = Scratches::new(alloc);
    'nodes: loop {
        let Some(node) = next_node(&book, &mut scratches) else {
            return Ok(Outcome::make(book, Ended::Done));
        };
        match take_turn(alloc, &mut book, node, pool, follower_nodes, &mut scratches)? {
            Turn::Closed => {}
            Turn::Divided { low, high } => scratches.split(low, high)?,
            Turn::Ended(end) => return Ok(Outcome::make(book, end)),
        }
    }
}

/// Solves a model with one worker, whatever the number of workers that is set.
pub fn solve_alone(
    alloc: Global,
    model: Arc<Bilevel, Global>,
    settings: Settings,
) -> Result<Outcome, AllocError>
    requires { AreSettings settings }
    ensures { IfOk result (IsOutcomeFor (arc_value model) 1 settings) }
{
    let mut pool = Pool::make(alloc, model.clone()?, MAX_POOL_ENTRIES)?;
    let book = Book::start(alloc, model, 1, settings.nodes)?;
    search(alloc, book, &mut pool, settings.follower_nodes)
}
