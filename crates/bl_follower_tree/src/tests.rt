//! A tree that is closed at once.

use super::*;
use bl_bound::Proof;
use bl_examples::half;
use bl_fproof::{FollowerRows, is_link};
use bl_model::Listed;
use std::alloc::Global;
use std::test::Fail;

#[test]
fn a_tree_of_one_leaf(rt: HostRuntime) -> Result<(), Fail> {
    let alloc = rt.alloc();
    let model = half(alloc)?;
    assert!(rt; is_link(&model, &[]));
    let rows = FollowerRows::make(alloc, &model, &[])?;
    let mut tree = GrowingTree::start(alloc, &rows)?;
    assert_eq!(rt; tree.size(), 1);
    assert!(rt; tree.next_box().is_some());
    let mult = Listed::new(Vec::new(alloc));
    tree.shut(Proof { den: 0, mult })?;
    assert!(rt; tree.next_box().is_none());
    assert_eq!(rt; tree.size(), 1);
    assert!(rt; !tree.is_left());
    let (licensed, cutoffs, steps) = tree.into_parts();
    assert_eq!(rt; licensed.nodes.as_slice().len(), 1);
    assert_eq!(rt; cutoffs.as_slice().len(), 0);
    assert_eq!(rt; steps.as_slice().len(), 1);
    Ok(())
}
