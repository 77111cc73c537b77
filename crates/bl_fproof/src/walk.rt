//! The walk over the tree of a follower proof, in preorder over a stack of boxes.
ghost use Rattle.std.specs.Prelude.{◌≡◌, ◌↔◌, IsTrue, IfOk, MatchOption, All};
ghost use Rattle.bl_terms.specs.Bounds.{Proves, over};
ghost use Rattle.bl_fproof.specs.Steps.{node_of, nodes_of};
ghost use Rattle.bl_fproof.specs.Entries.{Closes, FailsToClose};
ghost use Rattle.bl_fproof.specs.Stacks.{IsPart, IsStepTaken};

use crate::answered::Step;
use crate::part::Part;
use crate::rows::FollowerRows;
use bl_bound::{Proof, holds};
use std::alloc::{AllocError, Global};

/// Whether the proof closes the part.
fn is_shut(
    alloc: Global,
    rows: &FollowerRows,
    cutoff: Option<i64>,
    part: &Part,
    proof: &Proof,
) -> Result<bool, AllocError>
    requires { IsPart rows.now part.now }
    ensures { IfOk result (λ shut. IsTrue shut ↔ Proves (over rows.now part.now) cutoff proof.now) }
{
    let problem = rows.problem(alloc, part.lo(), part.hi())?;
    Ok(holds(&problem, cutoff, proof))
}

/// Takes a step on the last part of the stack: closes it, or puts its halves in its place. Answers
/// whether the step stands.
fn take_step(
    alloc: Global,
    rows: &FollowerRows,
    cutoff: Option<i64>,
    step: &Step,
    stack: &mut Vec<Part>,
) -> Result<bool, AllocError>
    requires { All (IsPart rows.now) stack.old.items }
    ensures { IfOk result (IsStepTaken rows.now cutoff (node_of step.now) stack.old.items stack.new.items) }
{
    let Some(part) = stack.pop() else {
        return Ok(false);
    };
    match step {
        Step::Shut(proof) => Ok(is_shut(alloc, rows, cutoff, &part, proof)?),
        Step::Split { column, at } => {
            let Some((low, high)) = part.halves(alloc, *column as usize, *at)? else {
                return Ok(false);
            };
            stack.push(high)?;
            stack.push(low)?;
            Ok(true)
        }
    }
}

/// The first step that fails, none where the steps are a tree over the follower's box, each leaf of
/// which is closed for the cutoff. Steps that end early fail at their count, and steps that go on
/// after the tree fail at the first surplus one. Takes one pass over the steps.
pub fn first_failing_step(
    alloc: Global,
    rows: &FollowerRows,
    cutoff: Option<i64>,
    steps: &[Step],
) -> Result<Option<usize>, AllocError>
    ensures { IfOk result (λ o.
        MatchOption o (Closes rows.now cutoff (nodes_of steps.now))
        (FailsToClose rows.now cutoff (nodes_of steps.now))) }
{
    let mut stack = Vec::new(alloc);
    stack.push(Part::whole(alloc, rows)?)?;
    for place in 0..steps.len() {
        if !take_step(alloc, rows, cutoff, &steps[place], &mut stack)? {
            return Ok(Some(place));
        }
    }
    if stack.is_empty() {
        Ok(None)
    } else {
        Ok(Some(steps.len()))
    }
}
