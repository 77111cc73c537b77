//! The search through the follower's box.
ghost use Rattle.std.specs.Prelude.{◌≤◌, [], IfOk};
ghost use Rattle.bl_follower.specs.Search.{IsUnderWay};

use crate::response::Response;
use crate::work::work_on;
use bl_follower_tree::GrowingTree;
use bl_fproof::FollowerRows;
use bl_led::Scratch;
use std::alloc::{AllocError, Global};

/// Works on the boxes in preorder until none is left. Answers the tree and the best response.
pub(crate) fn search(
    alloc: Global,
    rows: &FollowerRows,
    budget: u32,
    scratch: &mut Scratch,
) -> Result<(GrowingTree, Option<Response>), AllocError>
    requires { 1 ≤ budget }
    ensures { IfOk result (λ found. IsUnderWay rows.now budget found.1 found.0 []) }
{
    let mut tree = GrowingTree::start(alloc, rows)?;
    let mut best = None;
    'boxes: while let Some(part) = tree.next_box() {
        work_on(alloc, rows, budget, part, &mut tree, &mut best, scratch)?;
    }
    Ok((tree, best))
}
