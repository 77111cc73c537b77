//! Incumbents, licences and leaves of Moore and Bard's program (1990), worked out by hand.

use super::*;
use bl_bound::Proof;
use bl_cut::Cuts;
use bl_examples::moore_bard;
use bl_fproof::{Answered, FollowerProof, Step, admit, is_link};
use bl_licence::Why;
use bl_model::{Bilevel, Box2, Halves, Listed};
use bl_pool::{Kept, Pool};
use std::alloc::Global;
use std::sync::Arc;
use std::test::Fail;

fn program(alloc: Global) -> Result<Arc<Bilevel, Global>, Fail> {
    Ok(Arc::new(alloc, moore_bard(alloc)?)?)
}

fn proof(alloc: Global, den: i64, mult: &[i64]) -> Result<Proof, Fail> {
    let mult = Listed::new(mult.to_vec(alloc)?);
    Ok(Proof { den, mult })
}

/// A best response, which 10 times the cost and the last row show.
fn best(alloc: Global, response: i64) -> Result<Answered, Fail> {
    let shut = Step::Shut(proof(alloc, 10, &[0, 0, 0, 1])?);
    Ok(Answered::Best {
        response: Listed::new(vec![in alloc; response]?),
        value: response,
        proof: FollowerProof {
            steps: Listed::new(vec![in alloc; shut]?),
        },
    })
}

/// Nothing answers X = 0: up to 1 the last row fails, and from 2 on the first.
fn unanswered(alloc: Global) -> Result<Answered, Fail> {
    let split = Step::Split { column: 0, at: 1 };
    let low = Step::Shut(proof(alloc, 0, &[0, 0, 0, 1])?);
    let high = Step::Shut(proof(alloc, 0, &[1, 0, 0, 0])?);
    let proof = FollowerProof {
        steps: Listed::new(vec![in alloc; split, low, high]?),
    };
    Ok(Answered::NoResponse { proof })
}

/// The entry of a value of X, for which the answer is 2 to 2 and 1 to 3, and none to 0.
fn kept(alloc: Global, model: &Arc<Bilevel, Global>, link: i64) -> Result<Option<Kept>, Fail> {
    let answered = match link {
        2 => best(alloc, 2)?,
        3 => best(alloc, 1)?,
        _ => unanswered(alloc)?,
    };
    let link = vec![in alloc; link]?;
    if !is_link(model, &link) {
        return Ok(None);
    }
    let Ok(entry) = admit(alloc, model.clone()?, link, answered) else {
        return Ok(None);
    };
    let mut pool = Pool::make(alloc, model.clone()?, 1)?;
    Ok(pool.put(alloc, entry).ok())
}

/// The incumbent of a point with the entry of a value of X.
fn shown(
    alloc: Global,
    model: &Arc<Bilevel, Global>,
    point: [i64; 2],
    link: i64,
) -> Result<Result<Incumbent, ShowFail>, Fail> {
    let Some(kept) = kept(alloc, model, link)? else {
        return Ok(Err(ShowFail::Memory));
    };
    let point = Vec::from_array(alloc, point)?;
    Ok(show(alloc, model.clone()?, point, kept))
}

/// The value of that incumbent.
fn value(alloc: Global, point: [i64; 2], link: i64) -> Result<Result<i64, ShowFail>, Fail> {
    let model = program(alloc)?;
    Ok(shown(alloc, &model, point, link)?.map(|incumbent| incumbent.value()))
}

#[test]
fn incumbents(rt: HostRuntime) -> Result<(), Fail> {
    let alloc = rt.alloc();
    assert_eq!(rt; value(alloc, [2, 2], 2)?, Ok(-22));
    let dearer = ShowFail::Dearer { point: 4, best: 2 };
    assert_eq!(rt; value(alloc, [2, 4], 2)?, Err(dearer));
    assert_eq!(rt; value(alloc, [2, 11], 2)?, Err(ShowFail::OutsideBox));
    assert_eq!(rt; value(alloc, [2, 2], 3)?, Err(ShowFail::OtherLink));
    assert_eq!(rt;
        value(alloc, [0, 0], 0)?,
        Err(ShowFail::BreaksRow { row: 3 })
    );
    Ok(())
}

/// The incumbent (2, 2), where it is wanted.
fn incumbent(
    alloc: Global,
    model: &Arc<Bilevel, Global>,
    is_wanted: bool,
) -> Result<Option<Arc<Incumbent, Global>>, Fail> {
    if !is_wanted {
        return Ok(None);
    }
    match shown(alloc, model, [2, 2], 2)? {
        Ok(incumbent) => Ok(Some(Arc::new(alloc, incumbent)?)),
        Err(_) => Ok(None),
    }
}

/// Whether (2, 4) with a response licenses the split of the whole box.
fn licence(alloc: Global, response: i64, has_cutoff: bool) -> Result<Option<WhyFail>, Fail> {
    let model = program(alloc)?;
    let area = Arc::new(alloc, Box2::root(alloc, &model)?)?;
    let root = Box2::root(alloc, &model)?;
    if !area.within(&root) {
        return Ok(Some(WhyFail::Memory));
    }
    let why = Why::Better {
        point: Listed::new(vec![in alloc; 2, 4]?),
        response: Listed::new(vec![in alloc; response]?),
    };
    let best = incumbent(alloc, &model, has_cutoff)?;
    Ok(prove_why(alloc, model, area, best, None, why).err())
}

#[test]
fn licences(rt: HostRuntime) -> Result<(), Fail> {
    let alloc = rt.alloc();
    assert_eq!(rt; licence(alloc, 2, false)?, None);
    assert_eq!(rt; licence(alloc, 2, true)?, None);
    assert_eq!(rt; licence(alloc, 3, false)?, None);
    assert_eq!(rt; licence(alloc, 4, false)?, Some(WhyFail::NotLicensed));
    Ok(())
}

/// The box of the values of X above one number and up to another.
fn part(
    alloc: Global,
    model: &Bilevel,
    above: i64,
    to: i64,
) -> Result<Option<Arc<Box2, Global>>, Fail> {
    let root = Arc::new(alloc, Box2::root(alloc, model)?)?;
    let Some(low) = half(alloc, root, to, false)? else {
        return Ok(None);
    };
    half(alloc, low, above, true)
}

/// A half of a box that is split at a value of X; the box where it can't be.
fn half(
    alloc: Global,
    area: Arc<Box2, Global>,
    at: i64,
    is_high: bool,
) -> Result<Option<Arc<Box2, Global>>, Fail> {
    if area.lo().is_empty() {
        return Ok(None);
    }
    if at < area.lo()[0] || area.hi()[0] <= at {
        return Ok(Some(area));
    }
    let halves = Halves::make(alloc, area, 0, at)?;
    let half = if is_high { halves.high() } else { halves.low() };
    Ok(Some(half.clone()?))
}

/// Why a leaf at the values of X above one number and up to another isn't proved.
fn refusal(
    alloc: Global,
    model: Arc<Bilevel, Global>,
    area: (i64, i64),
    leaf: Leaf,
    has_cutoff: bool,
) -> Result<Option<LeafFail>, Fail> {
    let Some(area) = part(alloc, &model, area.0, area.1)? else {
        return Ok(Some(LeafFail::Memory));
    };
    let root = Box2::root(alloc, &model)?;
    if !area.within(&root) {
        return Ok(Some(LeafFail::Memory));
    }
    let best = incumbent(alloc, &model, has_cutoff)?;
    Ok(prove_leaf(alloc, model, area, best, leaf).err())
}

/// Why the leaf of this bound, with the entry of a value of X or without one, isn't proved.
fn bound(
    alloc: Global,
    area: (i64, i64),
    link: Option<i64>,
    numbers: (i64, [i64; 5]),
    has_cutoff: bool,
) -> Result<Option<LeafFail>, Fail> {
    let model = program(alloc)?;
    let value_row = match link {
        Some(link) => kept(alloc, &model, link)?,
        None => None,
    };
    let leaf = Leaf::Bounded {
        proof: proof(alloc, numbers.0, &numbers.1)?,
        cuts: Cuts::none(alloc)?,
        value_row,
    };
    refusal(alloc, model, area, leaf, has_cutoff)
}

// The cost and 10 times the value row Y <= 2 show that no point of X = 2 costs less than -22.
#[test]
fn bounds(rt: HostRuntime) -> Result<(), Fail> {
    let alloc = rt.alloc();
    let by_value = (1, [0, 0, 0, 0, 10]);
    assert_eq!(rt; bound(alloc, (1, 2), Some(2), by_value, true)?, None);
    assert_eq!(rt;
        bound(alloc, (1, 2), Some(2), by_value, false)?,
        Some(LeafFail::Proof)
    );
    assert_eq!(rt;
        bound(alloc, (1, 2), None, by_value, true)?,
        Some(LeafFail::Proof)
    );
    assert_eq!(rt;
        bound(alloc, (1, 2), Some(3), by_value, true)?,
        Some(LeafFail::OtherLink)
    );
    assert_eq!(rt;
        bound(alloc, (1, 3), Some(2), by_value, true)?,
        Some(LeafFail::LinkFree)
    );
    assert_eq!(rt;
        bound(alloc, (-1, 0), Some(0), by_value, true)?,
        Some(LeafFail::NoValue)
    );
    // The second row and twice the third show that X is at most 8.
    assert_eq!(rt;
        bound(alloc, (8, 9), None, (0, [0, 1, 2, 0, 0]), false)?,
        None
    );
    Ok(())
}

/// Why the leaf at a value of X, the one above the first number, whose entry is to have no response isn't proved.
fn silence(alloc: Global, area: (i64, i64)) -> Result<Option<LeafFail>, Fail> {
    let model = program(alloc)?;
    match kept(alloc, &model, area.1)? {
        Some(kept) => refusal(alloc, model, area, Leaf::NoAnswer(kept), false),
        None => Ok(Some(LeafFail::Memory)),
    }
}

#[test]
fn no_answers(rt: HostRuntime) -> Result<(), Fail> {
    let alloc = rt.alloc();
    assert_eq!(rt; silence(alloc, (-1, 0))?, None);
    assert_eq!(rt; silence(alloc, (1, 2))?, Some(LeafFail::HasResponse));
    Ok(())
}
