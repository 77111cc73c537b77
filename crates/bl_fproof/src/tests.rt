//! Answers to the links of Moore and Bard's program (1990), worked out by hand.

use super::*;
use bl_bound::Proof;
use bl_examples::moore_bard;
use bl_model::Listed;
use std::alloc::Global;
use std::sync::Arc;
use std::test::Fail;

fn shut(alloc: Global, den: i64, mult: &[i64]) -> Result<Step, Fail> {
    let mult = Listed::new(mult.to_vec(alloc)?);
    Ok(Step::Shut(Proof { den, mult }))
}

fn best(response: Vec<i64>, value: i64, steps: Vec<Step>) -> Answered {
    Answered::Best {
        response: Listed::new(response),
        value,
        proof: FollowerProof {
            steps: Listed::new(steps),
        },
    }
}

/// The step at which the answer to the link fails, none where it is admitted.
fn refusal(alloc: Global, link: i64, answered: Answered) -> Result<Option<u64>, Fail> {
    let model = Arc::new(alloc, moore_bard(alloc)?)?;
    let link = vec![in alloc; link]?;
    if !is_link(&model, &link) {
        return Ok(Some(99));
    }
    match admit(alloc, model, link, answered) {
        Ok(_) => Ok(None),
        Err(AdmitFail::NotShown { node }) => Ok(Some(node)),
        Err(AdmitFail::Memory) => Ok(Some(98)),
    }
}

// The follower answers Y = 2 to X = 2: 10 times its cost and the last row show that Y is above 1.
fn two(alloc: Global, response: i64, value: i64) -> Result<Option<u64>, Fail> {
    let steps = vec![in alloc; shut(alloc, 10, &[0, 0, 0, 1])?]?;
    refusal(alloc, 2, best(vec![in alloc; response]?, value, steps))
}

#[test]
fn a_best_response(rt: HostRuntime) -> Result<(), Fail> {
    assert_eq!(rt; two(rt.alloc(), 2, 2)?, None);
    assert_eq!(rt; two(rt.alloc(), 3, 3)?, Some(0));
    assert_eq!(rt; two(rt.alloc(), 2, 1)?, Some(0));
    assert_eq!(rt; two(rt.alloc(), 1, 1)?, Some(0));
    let out_of_range = refusal(
        rt.alloc(),
        11,
        best(vec![in rt.alloc(); 2]?, 2, Vec::new(rt.alloc())),
    )?;
    assert_eq!(rt; out_of_range, Some(99));
    Ok(())
}

fn unanswered(alloc: Global, steps: Vec<Step>) -> Result<Option<u64>, Fail> {
    let proof = FollowerProof {
        steps: Listed::new(steps),
    };
    refusal(alloc, 0, Answered::NoResponse { proof })
}

// Nothing answers X = 0: up to 1 the last row fails, and from 2 on the first.
#[test]
fn no_response(rt: HostRuntime) -> Result<(), Fail> {
    let alloc = rt.alloc();
    let split = |at: i64| Step::Split { column: 0, at };
    let low = || shut(alloc, 0, &[0, 0, 0, 1]);
    let high = || shut(alloc, 0, &[1, 0, 0, 0]);
    let shown = unanswered(alloc, vec![in alloc; split(1), low()?, high()?]?)?;
    assert_eq!(rt; shown, None);
    let early = unanswered(alloc, vec![in alloc; split(1), low()?]?)?;
    assert_eq!(rt; early, Some(2));
    let surplus = unanswered(alloc, vec![in alloc; split(1), low()?, high()?, high()?]?)?;
    assert_eq!(rt; surplus, Some(3));
    let swapped = unanswered(alloc, vec![in alloc; split(1), high()?, low()?]?)?;
    assert_eq!(rt; swapped, Some(1));
    let no_half = unanswered(alloc, vec![in alloc; split(10), low()?, high()?]?)?;
    assert_eq!(rt; no_half, Some(0));
    Ok(())
}
