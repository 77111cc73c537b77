//! The leaves that close a node's box.
ghost use Rattle.std.specs.Prelude.{◌≡◌, Some, None, IfOk, option_map};
ghost use Rattle.std.specs.Arc.{arc_value};
ghost use Rattle.bl_terms.specs.Bounds.{Proves};
ghost use Rattle.bl_leaf_terms.specs.Nodes.{HasValue, plain_problem};
ghost use Rattle.bl_leaf_terms.specs.Leaves.{HasNoAnswer, IsShownClosed};
ghost use Rattle.bl_tree.specs.Closing.{evidence_of};
ghost use Rattle.bl_tree.specs.Laws.{with_zero as with_zero_of};
ghost use Rattle.bl_node.specs.Works.{IsSoundJob, job_of, IsClosing};
ghost use Rattle.bl_node.specs.Standing.{IsFound, cutoff_with};

use crate::found::share;
use bl_bound::Proof;
use bl_cut::Cuts;
use bl_pool::Kept;
use bl_raw::Listed;
use bl_tree::{Incumbent, Leaf, ProvedLeaf, Task};
use std::alloc::{AllocError, Global};
use std::sync::Arc;

/// The leaf of this evidence, with what is found as the cutoff.
fn leaf_of(
    task: &Task,
    found: &Option<Arc<Incumbent, Global>>,
    leaf: Leaf,
) -> Result<ProvedLeaf, AllocError>
    requires job { IsSoundJob (job_of task.now) }
    requires found { IsFound (job_of task.now) (option_map arc_value found.now) }
    requires shown { IsShownClosed (job_of task.now).program (job_of task.now).area
        (cutoff_with (job_of task.now) (option_map arc_value found.now)) (evidence_of leaf) }
    ensures { IfOk result (IsClosing (job_of task.now)) }
{
    let cutoff = share(task, found)?;
    let model = task.model.clone()?;
    let area = task.area.clone()?;
    Ok(ProvedLeaf::make(model, area, cutoff, leaf))
}

/// Closes a box that fixes the linking columns by a proof with the value row.
pub(crate) fn closed_with_value(
    alloc: Global,
    task: &Task,
    found: &Option<Arc<Incumbent, Global>>,
    proof: Proof,
    kept: Kept,
    value: i64,
) -> Result<ProvedLeaf, AllocError>
    requires job { IsSoundJob (job_of task.now) }
    requires found { IsFound (job_of task.now) (option_map arc_value found.now) }
    requires value { HasValue (job_of task.now).program (job_of task.now).area kept value }
    requires proof { Proves (plain_problem (job_of task.now).program (job_of task.now).area (Some value))
        (cutoff_with (job_of task.now) (option_map arc_value found.now)) proof }
    ensures { IfOk result (IsClosing (job_of task.now)) }
{
    let cuts = Cuts::none(alloc)?;
    let value_row = Some(kept);
    leaf_of(
        task,
        found,
        Leaf::Bounded {
            proof,
            cuts,
            value_row,
        },
    )
}

/// The proof with the multiplier 0 for a further row.
fn with_zero(proof: Proof) -> Result<Proof, AllocError>
    ensures { IfOk result (λ more. more ≡ with_zero_of proof) }
{
    let den = proof.den;
    let mut mult = proof.mult.into_vec();
    mult.push(0)?;
    let mult = Listed::new(mult);
    Ok(Proof { den, mult })
}

/// Closes a box by a proof of its plain problem without the value row, in whose place there is a row of zeros.
pub(crate) fn closed_plainly(
    alloc: Global,
    task: &Task,
    found: &Option<Arc<Incumbent, Global>>,
    proof: Proof,
) -> Result<ProvedLeaf, AllocError>
    requires job { IsSoundJob (job_of task.now) }
    requires found { IsFound (job_of task.now) (option_map arc_value found.now) }
    requires proof { Proves (plain_problem (job_of task.now).program (job_of task.now).area None)
        (cutoff_with (job_of task.now) (option_map arc_value found.now)) proof }
    ensures { IfOk result (IsClosing (job_of task.now)) }
{
    let proof = with_zero(proof)?;
    let cuts = Cuts::none(alloc)?;
    let value_row = None;
    leaf_of(
        task,
        found,
        Leaf::Bounded {
            proof,
            cuts,
            value_row,
        },
    )
}

/// Closes a box whose link has no response.
pub(crate) fn closed_without_answer(
    task: &Task,
    found: &Option<Arc<Incumbent, Global>>,
    kept: Kept,
) -> Result<ProvedLeaf, AllocError>
    requires job { IsSoundJob (job_of task.now) }
    requires found { IsFound (job_of task.now) (option_map arc_value found.now) }
    requires none { HasNoAnswer (job_of task.now).program (job_of task.now).area kept }
    ensures { IfOk result (IsClosing (job_of task.now)) }
{
    leaf_of(task, found, Leaf::NoAnswer(kept))
}
