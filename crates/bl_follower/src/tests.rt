//! Links of Moore and Bard's program (1990), and of one whose relaxation isn't whole, worked out by hand.

use super::*;
use bl_examples::{half, moore_bard};
use bl_fproof::{Answered, is_link};
use bl_licence::Why;
use bl_model::Bilevel;
use std::alloc::Global;
use std::sync::Arc;
use std::test::Fail;

/// A response and its cost.
fn first_value(answered: &Answered) -> Option<(i64, i64)> {
    match answered {
        Answered::Best {
            response,
            value,
            ..
        } => match response.as_slice().first() {
            Some(first) => Some((*first, *value)),
            None => None,
        },
        Answered::NoResponse { .. } => None,
    }
}

/// What the follower answers to the link, none where the budget is spent: his response and its cost, or that there is
/// none.
fn answer(
    alloc: Global,
    model: Bilevel,
    link: &[i64],
    budget: u32,
) -> Result<Option<Option<(i64, i64)>>, Fail> {
    let model = Arc::new(alloc, model)?;
    if budget == 0 || !is_link(&model, link) {
        return Ok(None);
    }
    match solve_follower(alloc, model, link, budget) {
        Ok(solved) => Ok(Some(first_value(&solved.answered))),
        Err(FollowerFail::Spent(_)) => Ok(None),
        Err(FollowerFail::Memory) => Err(Fail::new("no memory")),
    }
}

#[test]
fn links_of_moore_and_bard(rt: HostRuntime) -> Result<(), Fail> {
    let alloc = rt.alloc();
    assert_eq!(rt;
        answer(alloc, moore_bard(alloc)?, &[2], 21)?,
        Some(Some((2, 2)))
    );
    assert_eq!(rt; answer(alloc, moore_bard(alloc)?, &[0], 21)?, Some(None));
    assert_eq!(rt; answer(alloc, moore_bard(alloc)?, &[9], 21)?, Some(None));
    Ok(())
}

#[test]
fn a_relaxation_that_is_not_whole(rt: HostRuntime) -> Result<(), Fail> {
    let alloc = rt.alloc();
    assert_eq!(rt; answer(alloc, half(alloc)?, &[], 1)?, None);
    assert_eq!(rt; answer(alloc, half(alloc)?, &[], 2)?, None);
    assert_eq!(rt; answer(alloc, half(alloc)?, &[], 3)?, Some(Some((1, 3))));
    Ok(())
}

/// Whether the tree is one leaf that is left open at a fractional point.
fn is_left_at_fraction(tree: &Licensed) -> bool {
    match tree.nodes.as_slice() {
        [LicensedNode::Left(Some(Why::Fraction(_)))] => true,
        _ => false,
    }
}

/// Whether the budget is spent with such a tree.
fn is_spent(alloc: Global, model: Bilevel, link: &[i64], budget: u32) -> Result<bool, Fail> {
    let model = Arc::new(alloc, model)?;
    if budget == 0 || !is_link(&model, link) {
        return Ok(false);
    }
    match solve_follower(alloc, model, link, budget) {
        Ok(_) => Ok(false),
        Err(FollowerFail::Spent(spent)) => Ok(is_left_at_fraction(spent.tree())),
        Err(FollowerFail::Memory) => Err(Fail::new("no memory")),
    }
}

#[test]
fn one_node_is_left_with_its_licence(rt: HostRuntime) -> Result<(), Fail> {
    let alloc = rt.alloc();
    assert!(rt; is_spent(alloc, half(alloc)?, &[], 1)?);
    assert!(rt; !is_spent(alloc, half(alloc)?, &[], 3)?);
    Ok(())
}
