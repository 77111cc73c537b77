//! A pool of answers to links of Moore and Bard's program (1990), worked out by hand.

ghost use Rattle.std.specs.Prelude.{◌≤ℤ◌, pos};

use super::*;
use bl_bound::Proof;
use bl_examples::{dearer_moore_bard, moore_bard};
use bl_fproof::{Answered, Entry, FollowerProof, Step, admit, is_link};
use bl_model::{Bilevel, Listed};
use std::alloc::Global;
use std::sync::Arc;
use std::test::Fail;

/// Moore and Bard's program, or the one with other costs of the leader.
fn program(alloc: Global, is_dearer: bool) -> Result<Arc<Bilevel, Global>, Fail> {
    let model = if is_dearer {
        dearer_moore_bard(alloc)?
    } else {
        moore_bard(alloc)?
    };
    Ok(Arc::new(alloc, model)?)
}

/// The entry of this response to a value of X, which the last row shows so many times.
fn entry(
    alloc: Global,
    model: &Arc<Bilevel, Global>,
    link: i64,
    response: i64,
    times: i64,
) -> Result<Option<Entry>, Fail>
    requires { (pos 1 ≤ℤ times) × (times ≤ℤ pos 9) }
{
    let proof = Proof {
        den: 10 * times,
        mult: Listed::new(vec![in alloc; 0, 0, 0, times]?),
    };
    let answered = Answered::Best {
        response: Listed::new(vec![in alloc; response]?),
        value: response,
        proof: FollowerProof {
            steps: Listed::new(vec![in alloc; Step::Shut(proof)]?),
        },
    };
    let link = vec![in alloc; link]?;
    if !is_link(model, &link) {
        return Ok(None);
    }
    Ok(admit(alloc, model.clone()?, link, answered).ok())
}

/// How many times the last row shows the entry, where it is of this value of X.
fn times_of(entry: &Entry, link: i64) -> Option<i64> {
    if entry.link() != [link].as_slice() {
        return None;
    }
    let Answered::Best { proof, .. } = entry.answered() else {
        return None;
    };
    match proof.steps.as_slice() {
        [Step::Shut(proof)] => Some(proof.den / 10),
        _ => None,
    }
}

/// The answer to a put, and the entry that is kept or handed back.
fn put(
    alloc: Global,
    pool: &mut Pool,
    entry: Option<Entry>,
    link: i64,
) -> (&'static str, Option<i64>) {
    let Some(entry) = entry else {
        return ("not admitted", None);
    };
    match pool.put(alloc, entry) {
        Ok(kept) => ("kept", times_of(kept.entry(), link)),
        Err(PutFail::OtherModel(entry)) => ("other model", times_of(&entry, link)),
        Err(PutFail::NotKept(kept)) => ("not kept", times_of(kept.entry(), link)),
        Err(PutFail::Memory) => ("no memory", None),
    }
}

#[test]
fn a_pool_of_one(rt: HostRuntime) -> Result<(), Fail> {
    let alloc = rt.alloc();
    let model = program(alloc, false)?;
    let mut pool = Pool::make(alloc, model.clone()?, 1)?;
    let first = entry(alloc, &model, 2, 2, 1)?;
    assert_eq!(rt; put(alloc, &mut pool, first, 2), ("kept", Some(1)));
    let second = entry(alloc, &model, 2, 2, 2)?;
    assert_eq!(rt; put(alloc, &mut pool, second, 2), ("kept", Some(1)));
    let three = entry(alloc, &model, 3, 1, 3)?;
    assert_eq!(rt; put(alloc, &mut pool, three, 3), ("not kept", Some(3)));
    assert!(rt; pool.get(&[3]).is_none());
    match pool.get(&[2]) {
        Some(kept) => {
            let copy = kept.copy()?;
            assert_eq!(rt; times_of(copy.entry(), 2), Some(1));
        }
        None => assert!(rt; false),
    }
    Ok(())
}

#[test]
fn an_entry_of_another_model(rt: HostRuntime) -> Result<(), Fail> {
    let alloc = rt.alloc();
    let other = program(alloc, true)?;
    let mut pool = Pool::make(alloc, program(alloc, false)?, 2)?;
    let entry = entry(alloc, &other, 2, 2, 1)?;
    assert_eq!(rt; put(alloc, &mut pool, entry, 2), ("other model", Some(1)));
    assert!(rt; pool.get(&[2]).is_none());
    Ok(())
}
