//! A link that is solved once, worked out by hand.

use super::*;
use bl_examples::half;
use bl_follower::Scratch;
use bl_fproof::{Answered, is_link};
use bl_pool::{Kept, Pool};
use std::alloc::Global;
use std::sync::Arc;
use std::test::Fail;

/// The follower's least cost.
fn value(kept: &Kept) -> Option<i64> {
    match kept.entry().answered() {
        Answered::Best { value, .. } => Some(*value),
        Answered::NoResponse { .. } => None,
    }
}

// With Y = 1/2 the relaxation isn't whole, so three nodes are needed, and Y = 1 is the best response.
#[test]
fn what_is_kept_is_found(rt: HostRuntime) -> Result<(), Fail> {
    let alloc = rt.alloc();
    let model = Arc::new(alloc, half(alloc)?)?;
    assert!(rt; is_link(&model, &[]));
    let mut scratch = Scratch::new(alloc);
    let mut pool = Pool::make(alloc, model.clone()?, 1)?;
    assert!(rt; pool.look(alloc, &model, &[])?.is_none());
    match entry_for(alloc, &model, &[], &mut pool, 3, &mut scratch) {
        Ok(kept) => assert_eq!(rt; value(&kept), Some(3)),
        Err(_) => assert!(rt; false),
    }
    match pool.look(alloc, &model, &[])? {
        Some(kept) => assert_eq!(rt; value(&kept), Some(3)),
        None => assert!(rt; false),
    }
    assert!(rt; entry_for(alloc, &model, &[], &mut pool, 1, &mut scratch).is_ok());
    Ok(())
}
