//! The work at the roots of small programs, worked out by hand.

use super::*;
use bl_cut::Cuts;
use bl_examples::{equal_responses, leader_row, moore_bard, one_point};
use bl_fproof::Entry;
use bl_model::{Bilevel, Box2};
use bl_pool::{Kept, Pool};
use bl_tree::{Incumbent, Task};
use std::alloc::{AllocError, Global};
use std::sync::Arc;
use std::test::Fail;

/// A pool that counts the entries that are kept.
#[derive(Drop)]
struct Counted {
    pool: Pool,
    kept: u32,
}

impl Source for Counted {
    ghost use Rattle.std.specs.Prelude.{Some};

    ghost held = { λ source. Some source.pool.entries };

    fn look(
        &mut self,
        alloc: Global,
        model: &Bilevel,
        link: &[i64],
    ) -> Result<Option<Kept>, AllocError> {
        self.pool.look(alloc, model, link)
    }

    fn keep(&mut self, alloc: Global, entry: Entry) -> Result<Kept, KeepFail> {
        self.kept = self.kept.saturating_add(1);
        self.pool.keep(alloc, entry)
    }
}

/// The root of a program as a task, without an incumbent or cuts.
fn root_task(alloc: Global, model: &Arc<Bilevel, Global>) -> Result<Task, Fail> {
    let area = Arc::new(alloc, Box2::root(alloc, model)?)?;
    let cuts = Cuts::none(alloc)?;
    Ok(Task {
        worker: 0,
        node: 0,
        model: model.clone()?,
        area,
        best: None,
        cuts,
    })
}

/// What becomes of a node: whether its box is closed, and the cost of the last incumbent that is found.
type Outcome = (bool, Option<i64>);

fn cost(found: Option<Arc<Incumbent, Global>>) -> Option<i64> {
    found.map(|incumbent| incumbent.value())
}

fn told(worked: Result<Worked, WorkFail>) -> Option<Outcome> {
    match worked {
        Ok(Worked::Close { found, .. }) => Some((true, cost(found))),
        Ok(Worked::Divide { found, .. }) => Some((false, cost(found))),
        Err(_) => None,
    }
}

/// The work at the root of a program.
fn outcome<S: Source>(
    alloc: Global,
    model: &Arc<Bilevel, Global>,
    source: &mut S,
) -> Result<Option<Outcome>, Fail> {
    let task = root_task(alloc, model)?;
    let root = Box2::root(alloc, &task.model)?;
    if task.best.is_some() || !task.area.within(&root) {
        return Ok(None);
    }
    let worked = work(alloc, &task, source, 1000);
    Ok(told(worked))
}

fn alone(alloc: Global, model: Bilevel) -> Result<Option<Outcome>, Fail> {
    let model = Arc::new(alloc, model)?;
    let mut pool = Pool::make(alloc, model.clone()?, 20)?;
    outcome(alloc, &model, &mut pool)
}

// In Moore and Bard's program the whole point (2, 4) at -42 has the better response 2, and (2, 2) at -22 is bilevel
// feasible.
#[test]
fn roots(rt: HostRuntime) -> Result<(), Fail> {
    let alloc = rt.alloc();
    assert_eq!(rt; alone(alloc, moore_bard(alloc)?)?, Some((false, Some(-22))));
    assert_eq!(rt;
        alone(alloc, equal_responses(alloc)?)?,
        Some((true, Some(-1)))
    );
    assert_eq!(rt; alone(alloc, leader_row(alloc)?)?, Some((true, None)));
    assert_eq!(rt; alone(alloc, one_point(alloc, 3)?)?, Some((true, Some(6))));
    assert_eq!(rt; alone(alloc, one_point(alloc, 2)?)?, Some((true, None)));
    Ok(())
}

// What the first call keeps, the second one finds.
#[test]
fn entries_are_kept_once(rt: HostRuntime) -> Result<(), Fail> {
    let alloc = rt.alloc();
    let model = Arc::new(alloc, moore_bard(alloc)?)?;
    let pool = Pool::make(alloc, model.clone()?, 20)?;
    let mut source = Counted { pool, kept: 0 };
    assert!(rt; outcome(alloc, &model, &mut source)?.is_some());
    let kept = source.kept;
    assert!(rt; 0 < kept);
    assert!(rt; outcome(alloc, &model, &mut source)?.is_some());
    assert_eq!(rt; source.kept, kept);
    Ok(())
}
