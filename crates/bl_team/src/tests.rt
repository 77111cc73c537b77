//! Answers to small programs, worked out by hand.

use super::*;
use bl_core::Ended;
use bl_examples::{
    equal_responses, half, leader_row, least_under_leader, moore_bard, most_under_leader,
    no_follower, one_point,
};
use bl_limits::{MAX_FOLLOWER_NODES, MAX_NODES};
use bl_model::Bilevel;
use std::alloc::Global;
use std::sync::Arc;
use std::test::Fail;

/// What a search tells: the best value, or how many nodes were made where a limit is spent.
#[derive(Clone, Copy, Debug, PartialEq, Eq)]
enum Told {
    Best(Option<i64>),
    Nodes(u32),
    Follower(u32),
    BadLimits,
}

fn outcome_of(
    alloc: Global,
    model: Bilevel,
    nodes: u32,
    follower_nodes: u32,
) -> Result<Told, Fail> {
    if nodes == 0 || nodes > MAX_NODES || follower_nodes == 0 {
        return Ok(Told::BadLimits);
    }
    if follower_nodes > MAX_FOLLOWER_NODES {
        return Ok(Told::BadLimits);
    }
    let settings = Settings {
        workers: 1,
        nodes,
        follower_nodes,
    };
    let outcome = solve_alone(alloc, Arc::new(alloc, model)?, settings)?;
    Ok(match outcome.end() {
        Ended::Done => Told::Best(outcome.book().best().map(|best| best.value())),
        Ended::Nodes { .. } => Told::Nodes(outcome.book().made()),
        Ended::Follower(spent) => Told::Follower(spent.budget()),
    })
}

#[test]
fn answers(rt: HostRuntime) -> Result<(), Fail> {
    let alloc = rt.alloc();
    let best = |value: i64| Told::Best(Some(value));
    assert_eq!(rt; outcome_of(alloc, moore_bard(alloc)?, 241, 21)?, best(-22));
    assert_eq!(rt;
        outcome_of(alloc, most_under_leader(alloc)?, 47, 11)?,
        best(-3)
    );
    assert_eq!(rt;
        outcome_of(alloc, least_under_leader(alloc)?, 47, 11)?,
        best(-6)
    );
    assert_eq!(rt;
        outcome_of(alloc, equal_responses(alloc)?, 15, 7)?,
        best(-1)
    );
    assert_eq!(rt; outcome_of(alloc, no_follower(alloc)?, 31, 1)?, best(-7));
    assert_eq!(rt; outcome_of(alloc, one_point(alloc, 3)?, 1, 1)?, best(6));
    assert_eq!(rt; outcome_of(alloc, half(alloc)?, 7, 3)?, best(-1));
    Ok(())
}

#[test]
fn no_answers(rt: HostRuntime) -> Result<(), Fail> {
    let alloc = rt.alloc();
    assert_eq!(rt;
        outcome_of(alloc, leader_row(alloc)?, 1, 3)?,
        Told::Best(None)
    );
    assert_eq!(rt;
        outcome_of(alloc, one_point(alloc, 2)?, 1, 1)?,
        Told::Best(None)
    );
    Ok(())
}

#[test]
fn spent_limits(rt: HostRuntime) -> Result<(), Fail> {
    let alloc = rt.alloc();
    assert_eq!(rt;
        outcome_of(alloc, moore_bard(alloc)?, 1, 21)?,
        Told::Nodes(1)
    );
    assert_eq!(rt; outcome_of(alloc, half(alloc)?, 7, 1)?, Told::Follower(1));
    Ok(())
}
