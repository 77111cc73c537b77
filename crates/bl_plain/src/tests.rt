//! Small programs and their answers, worked out by hand.

use super::*;
use bl_examples::{
    equal_responses, leader_row, least_under_leader, moore_bard, most_under_leader, no_follower,
    one_point,
};
use bl_model::Bilevel;
use std::alloc::Global;
use std::test::Fail;

/// The value and the point that solve the program.
fn solved(alloc: Global, model: Bilevel) -> Result<Option<(i64, Vec<i64>)>, Fail> {
    Ok(plain_best(alloc, &model)?.map(|best| (best.cost, best.point)))
}

#[test]
fn one_answer(rt: HostRuntime) -> Result<(), Fail> {
    let alloc = rt.alloc();
    let best = solved(alloc, moore_bard(alloc)?)?;
    assert_eq!(rt; best, Some((-22, vec![in alloc; 2, 2]?)));
    let most = solved(alloc, most_under_leader(alloc)?)?;
    assert_eq!(rt; most, Some((-3, vec![in alloc; 3, 3]?)));
    let least = solved(alloc, least_under_leader(alloc)?)?;
    assert_eq!(rt; least, Some((-6, vec![in alloc; 3, 0]?)));
    let alone = solved(alloc, no_follower(alloc)?)?;
    assert_eq!(rt; alone, Some((-7, vec![in alloc; 2, 1]?)));
    let point = solved(alloc, one_point(alloc, 3)?)?;
    assert_eq!(rt; point, Some((6, vec![in alloc; 3]?)));
    Ok(())
}

#[test]
fn leader_chooses_among_equal_responses(rt: HostRuntime) -> Result<(), Fail> {
    let alloc = rt.alloc();
    let best = solved(alloc, equal_responses(alloc)?)?;
    assert_eq!(rt; best.map(|(value, _)| value), Some(-1));
    Ok(())
}

#[test]
fn no_answer(rt: HostRuntime) -> Result<(), Fail> {
    let alloc = rt.alloc();
    assert_eq!(rt; solved(alloc, leader_row(alloc)?)?, None);
    assert_eq!(rt; solved(alloc, one_point(alloc, 2)?)?, None);
    Ok(())
}
