//! The answer to a link.
ghost use Rattle.std.specs.Prelude.{◌≡◌, ◌≤◌, IfOk, IfErr};
ghost use Rattle.std.specs.Arc.{arc_value};
ghost use Rattle.bl_terms.specs.Responses.{IsLink};
ghost use Rattle.bl_follower.specs.Answers.{IsSolved, IsFailure};
ghost use Rattle.bl_follower.specs.Ends.{solved_by};
ghost use Rattle.bl_follower.specs.declared.solve.FollowerFail.TheVariants.{Memory};

use crate::response::Response;
use crate::search::search;
use crate::spent::Spent;
use bl_follower_tree::{GrowingTree, Licensed};
use bl_fproof::{Answered, FollowerProof, FollowerRows};
use bl_led::Scratch;
use bl_model::Bilevel;
use bl_raw::Listed;
use std::alloc::{AllocError, Global};
use std::sync::Arc;

/// The follower's answer to a link with its proof, and the tree by which it was found, whose splits are those of the
/// proof. There is one cutoff for each licence of the tree, in preorder.
#[derive(Debug, Drop)]
pub struct Solved {
    pub answered: Answered,
    pub tree: Licensed,
    pub cutoffs: Listed<Option<i64>>,
}

/// Why a link has no answer.
#[derive(Debug, Drop)]
pub enum FollowerFail {
    /// More nodes would be needed than may be taken.
    Spent(Spent),
    Memory,
}

impl From<AllocError> for FollowerFail {
    ghost from_gives = { λ _ e. e ≡ Memory };

    fn from(_error: AllocError) -> FollowerFail {
        FollowerFail::Memory
    }
}

/// The answer that a finished tree shows.
fn answer_of(tree: GrowingTree, best: Option<Response>) -> Solved
    ensures { result ≡ solved_by tree best }
{
    let (tree, cutoffs, steps) = tree.into_parts();
    let proof = FollowerProof { steps };
    let answered = match best {
        Some(Response { point, value }) => Answered::Best {
            response: point,
            value,
            proof,
        },
        None => Answered::NoResponse { proof },
    };
    Solved {
        answered,
        tree,
        cutoffs,
    }
}

/// Finds what the follower answers to the link, in a tree of at most `budget` nodes. Where as many nodes as twice the
/// points of his box but one may be taken, the budget is never spent. The scratch is room for relaxations and counts
/// for nothing.
pub fn solve_follower_with(
    alloc: Global,
    model: Arc<Bilevel, Global>,
    link: &[i64],
    budget: u32,
    scratch: &mut Scratch,
) -> Result<Solved, FollowerFail>
    requires link { IsLink (arc_value model) link.now }
    requires budget { 1 ≤ budget }
    ensures ok { IfOk result (IsSolved (arc_value model) link.now budget) }
    ensures err { IfErr result (IsFailure (arc_value model) link.now budget) }
{
    let rows = FollowerRows::make(alloc, &model, link)?;
    let (tree, best) = search(alloc, &rows, budget, scratch)?;
    if !tree.is_left() {
        return Ok(answer_of(tree, best));
    }
    let link = Vec::from_slice(alloc, link)?;
    let (tree, cutoffs, _) = tree.into_parts();
    Err(FollowerFail::Spent(Spent::make(model, link, budget, tree, cutoffs)))
}

/// The same with a scratch of its own.
pub fn solve_follower(
    alloc: Global,
    model: Arc<Bilevel, Global>,
    link: &[i64],
    budget: u32,
) -> Result<Solved, FollowerFail>
    requires link { IsLink (arc_value model) link.now }
    requires budget { 1 ≤ budget }
    ensures ok { IfOk result (IsSolved (arc_value model) link.now budget) }
    ensures err { IfErr result (IsFailure (arc_value model) link.now budget) }
{
    let mut scratch = Scratch::new(alloc);
    solve_follower_with(alloc, model, link, budget, &mut scratch)
}
