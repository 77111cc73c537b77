//! The book of Moore and Bard's program (1990) with at most three nodes, worked out by hand.

use super::*;
use bl_cut::Cuts;
use bl_examples::moore_bard;
use bl_licence::Why;
use bl_model::{Bilevel, Box2, Halves, Listed};
use bl_tree::{ProvedWhy, State, prove_why};
use std::alloc::Global;
use std::sync::Arc;
use std::test::Fail;

fn program(alloc: Global) -> Result<Arc<Bilevel, Global>, Fail> {
    Ok(Arc::new(alloc, moore_bard(alloc)?)?)
}

/// The book of the program, for two workers and at most three nodes.
fn book(alloc: Global) -> Result<Book, Fail> {
    Ok(Book::start(alloc, program(alloc)?, 2, 3)?)
}

/// Claims a node.
fn claim(book: &mut Book, worker: u32, node: u32) -> Result<Option<NotReady>, Fail> {
    book.make_room()?;
    if worker >= book.workers() {
        return Ok(None);
    }
    Ok(book.claim(worker, node).err())
}

/// How a worker's claim of a node is refused after a claim of the root.
fn second_claim(alloc: Global, worker: u32, node: u32) -> Result<Option<NotReady>, Fail> {
    let mut book = book(alloc)?;
    claim(&mut book, 0, 0)?;
    claim(&mut book, worker, node)
}

/// How many cuts a worker's task has after a claim of the root by worker 0, and whether it has a best incumbent.
fn task(alloc: Global, worker: u32) -> Result<Result<(u32, bool), TaskFail>, Fail> {
    let mut book = book(alloc)?;
    claim(&mut book, 0, 0)?;
    Ok(match book.task_of(worker, 0) {
        Ok(task) => Ok((task.cuts.count(), task.best.is_some())),
        Err(fail) => Err(fail),
    })
}

/// That (2, 4) has the better response 2, as a licence for a box.
fn licence(
    alloc: Global,
    model: &Arc<Bilevel, Global>,
    area: Arc<Box2, Global>,
) -> Result<Option<ProvedWhy>, Fail> {
    let root = Box2::root(alloc, model)?;
    if !area.within(&root) {
        return Ok(None);
    }
    let why = Why::Better {
        point: Listed::new(vec![in alloc; 2, 4]?),
        response: Listed::new(vec![in alloc; 2]?),
    };
    Ok(prove_why(alloc, model.clone()?, area, None, None, why).ok())
}

/// The box, split at a value of X.
fn halves(alloc: Global, area: Arc<Box2, Global>, at: i64) -> Result<Option<Halves>, Fail> {
    if area.lo().is_empty() || at < area.lo()[0] || area.hi()[0] <= at {
        return Ok(None);
    }
    Ok(Some(Halves::make(alloc, area, 0, at)?))
}

/// What a split answers.
#[derive(Clone, Copy, Debug, PartialEq, Eq)]
enum Told {
    Numbers(u32, u32),
    NotYours(Option<State>),
    Full(u32),
    Other,
}

/// Splits a node of this box at a value of X.
fn split(
    alloc: Global,
    book: &mut Book,
    worker: u32,
    node: u32,
    area: &Arc<Box2, Global>,
    at: i64,
) -> Result<Told, Fail> {
    let model = book.model().clone()?;
    let why = licence(alloc, &model, area.clone()?)?;
    let (Some(why), Some(halves)) = (why, halves(alloc, area.clone()?, at)?) else {
        return Ok(Told::Other);
    };
    book.make_room()?;
    if worker >= book.workers() {
        return Ok(Told::Other);
    }
    Ok(
        match book.split(worker, node, halves, why, Cuts::none(alloc)?) {
            Ok((low, high)) => Told::Numbers(low, high),
            Err(SplitFail::NotYours { kept }) => Told::NotYours(kept),
            Err(SplitFail::Full { made, .. }) => Told::Full(made),
            Err(_) => Told::Other,
        },
    )
}

/// Splits the root at 4 after a claim of it by worker 0.
fn split_root(alloc: Global, book: &mut Book, worker: u32) -> Result<Told, Fail> {
    let root = Arc::new(alloc, Box2::root(alloc, book.model())?)?;
    claim(book, 0, 0)?;
    split(alloc, book, worker, 0, &root, 4)
}

/// Splits node 1, the part of the root up to 4, after a claim of it by worker 1.
fn split_low(alloc: Global, book: &mut Book) -> Result<Told, Fail> {
    let root = Arc::new(alloc, Box2::root(alloc, book.model())?)?;
    split_root(alloc, book, 0)?;
    claim(book, 1, 1)?;
    match halves(alloc, root, 4)? {
        Some(halves) => split(alloc, book, 1, 1, halves.low(), 2),
        None => Ok(Told::Other),
    }
}

/// The root, claimed by worker 0 before there was a best incumbent.
const CLAIMED: Option<State> = Some(State::Claimed {
    worker: 0,
    best: None,
});

#[test]
fn claims(rt: HostRuntime) -> Result<(), Fail> {
    let alloc = rt.alloc();
    assert_eq!(rt;
        second_claim(alloc, 1, 0)?,
        Some(NotReady { kept: CLAIMED })
    );
    assert_eq!(rt; second_claim(alloc, 0, 9)?, Some(NotReady { kept: None }));
    Ok(())
}

#[test]
fn tasks(rt: HostRuntime) -> Result<(), Fail> {
    let alloc = rt.alloc();
    assert_eq!(rt; task(alloc, 0)?, Ok((0, false)));
    assert_eq!(rt; task(alloc, 1)?, Err(TaskFail::NotYours { kept: CLAIMED }));
    assert!(rt; book(alloc)?.share_best()?.is_none());
    Ok(())
}

#[test]
fn splits(rt: HostRuntime) -> Result<(), Fail> {
    let alloc = rt.alloc();
    let mut book = book(alloc)?;
    assert_eq!(rt; split_root(alloc, &mut book, 1)?, Told::NotYours(CLAIMED));
    assert_eq!(rt; split_root(alloc, &mut book, 0)?, Told::Numbers(1, 2));
    Ok(())
}

#[test]
fn a_full_book(rt: HostRuntime) -> Result<(), Fail> {
    let alloc = rt.alloc();
    let mut book = book(alloc)?;
    assert_eq!(rt; split_low(alloc, &mut book)?, Told::Full(3));
    assert_eq!(rt;
        (book.live(), book.next_ready(0), book.events()),
        (2, Some(2), 3)
    );
    Ok(())
}
