//! The incumbents that are found at a node, and the relaxation below them.
ghost use Rattle.std.specs.Prelude.{◌≡◌, ◌↔◌, Some, IsTrue, IfOk, OnOk, option_map};
ghost use Rattle.std.specs.Arc.{arc_value};
ghost use Rattle.std.specs.Option.{option_copied};
ghost use Rattle.bl_bound.specs.Plain.{CostsLess, IsPlainProof, OnePointClause};
ghost use Rattle.bl_relax.specs.Relaxed.{IsRelaxed};
ghost use Rattle.bl_leaf_terms.specs.Incumbents.{IsIncumbent, cost_of};
ghost use Rattle.bl_leaf_terms.specs.Nodes.{plain_problem as plain_problem_of};
ghost use Rattle.bl_node.specs.Works.{IsSoundJob, job_of};
ghost use Rattle.bl_node.specs.Standing.{best_of, cutoff_with, IsFound, IsFoundAfter, IsSmallValue};

use bl_bound::{Proof, plain_close};
use bl_led::{Scratch, relax_led};
use bl_pool::Kept;
use bl_relax::Relaxed;
use bl_tree::{Incumbent, Task, cutoff_by, plain_problem};
use std::alloc::{AllocError, Global};
use std::sync::Arc;

/// The incumbent that sets the cutoff: the last one that was found at the node, else the task's.
pub(crate) fn leading<'a>(
    task: &'a Task,
    found: &'a Option<Arc<Incumbent, Global>>,
) -> Option<&'a Arc<Incumbent, Global>>
    ensures { option_map arc_value (option_copied result)
        ≡ best_of (option_map arc_value found.now) (option_map arc_value task.now.best) }
{
    match found {
        Some(found) => Some(found),
        None => task.best.as_ref(),
    }
}

/// The cutoff that it sets.
pub(crate) fn cutoff(task: &Task, found: &Option<Arc<Incumbent, Global>>) -> Option<i64>
    ensures { result ≡ cutoff_with (job_of task.now) (option_map arc_value found.now) }
{
    cutoff_by(leading(task, found))
}

/// Another handle to it.
pub(crate) fn share(
    task: &Task,
    found: &Option<Arc<Incumbent, Global>>,
) -> Result<Option<Arc<Incumbent, Global>>, AllocError>
    ensures { IfOk result (λ copy. option_map arc_value copy
        ≡ best_of (option_map arc_value found.now) (option_map arc_value task.now.best)) }
{
    match leading(task, found) {
        Some(incumbent) => {
            let copy = incumbent.clone()?;
            Ok(Some(copy))
        }
        None => Ok(None),
    }
}

/// Whether a cost is below the cutoff.
pub(crate) fn is_below(cost: i64, cutoff: Option<i64>) -> bool
    ensures { IsTrue result ↔ CostsLess cutoff cost }
{
    match cutoff {
        Some(cutoff) => cost < cutoff,
        None => true,
    }
}

/// Makes an incumbent of the task's model the last one that is found, where it costs less than the one before.
pub(crate) fn enter(
    alloc: Global,
    task: &Task,
    incumbent: Incumbent,
    found: &mut Option<Arc<Incumbent, Global>>,
) -> Result<(), AllocError>
    requires found { IsFound (job_of task.now) (option_map arc_value found.old) }
    requires program { incumbent.program ≡ (job_of task.now).program }
    ensures { OnOk result (IsFoundAfter (job_of task.now)
        (option_map arc_value found.old) (option_map arc_value found.new)) }
{
    if is_below(incumbent.value(), cutoff(task, found)) {
        *found = Some(Arc::new(alloc, incumbent)?);
    }
    Ok(())
}

/// Takes a point that the entry shows as the incumbent. It costs less than the one before.
pub(crate) fn take(
    alloc: Global,
    task: &Task,
    point: Vec<i64>,
    kept: Kept,
    found: &mut Option<Arc<Incumbent, Global>>,
) -> Result<(), AllocError>
    requires job { IsSoundJob (job_of task.now) }
    requires found { IsFound (job_of task.now) (option_map arc_value found.old) }
    requires incumbent { IsIncumbent
        (record { program = (job_of task.now).program; point = point.items; entry = kept }) }
    requires better { CostsLess (cutoff_with (job_of task.now) (option_map arc_value found.old))
        (cost_of (record { program = (job_of task.now).program; point = point.items; entry = kept })) }
    ensures taken { OnOk result (option_map arc_value found.new
        ≡ Some (record { program = (job_of task.now).program; point = point.items; entry = kept })) }
    ensures found { OnOk result (IsFoundAfter (job_of task.now)
        (option_map arc_value found.old) (option_map arc_value found.new)) }
{
    let incumbent = Incumbent::make(task.model.clone()?, point, kept);
    let incumbent = Arc::new(alloc, incumbent)?;
    *found = Some(incumbent);
    Ok(())
}

/// Relaxes the plain problem of the node's box with this value below the cutoff.
pub(crate) fn relaxed(
    alloc: Global,
    task: &Task,
    value: Option<i64>,
    found: &Option<Arc<Incumbent, Global>>,
    scratch: &mut Scratch,
) -> Result<Relaxed, AllocError>
    requires job { IsSoundJob (job_of task.now) }
    requires value { IsSmallValue value }
    ensures { IfOk result (IsRelaxed
        (plain_problem_of (job_of task.now).program (job_of task.now).area value)
        (cutoff_with (job_of task.now) (option_map arc_value found.now))) }
{
    let problem = plain_problem(alloc, &task.model, &task.area, value)?;
    let relaxed = relax_led(alloc, &problem, cutoff(task, found), scratch)?;
    Ok(relaxed)
}

/// Closes the plain problem of the node's box with this value by a row or the cost alone, if it can.
pub(crate) fn plainly_closed(
    alloc: Global,
    task: &Task,
    value: Option<i64>,
    found: &Option<Arc<Incumbent, Global>>,
) -> Result<Option<Proof>, AllocError>
    requires job { IsSoundJob (job_of task.now) }
    requires value { IsSmallValue value }
    ensures plain { IfOk result (IsPlainProof
        (plain_problem_of (job_of task.now).program (job_of task.now).area value)
        (cutoff_with (job_of task.now) (option_map arc_value found.now))) }
    ensures one_point { IfOk result (OnePointClause
        (plain_problem_of (job_of task.now).program (job_of task.now).area value)
        (cutoff_with (job_of task.now) (option_map arc_value found.now))) }
{
    let problem = plain_problem(alloc, &task.model, &task.area, value)?;
    let proof = plain_close(alloc, &problem, cutoff(task, found))?;
    Ok(proof)
}
