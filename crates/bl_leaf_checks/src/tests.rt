//! Leaves of the program with X up to 1, Y up to 2 and X + Y <= 3, where the follower would rather have a small Y.

use bl_bound::Proof;
use bl_cut::{CutParts, Cuts, ProvedCut, Tight};
use bl_cut_proof::prove_cut;
use bl_examples::two_sums;
use bl_model::{Bilevel, Box2, Listed};
use bl_tree::{Leaf, LeafFail, prove_leaf};
use std::alloc::Global;
use std::sync::Arc;
use std::test::Fail;

/// The parts of the cut Y - X <= 1, made at (0, 2), where the follower has the response 0.
fn parts(alloc: Global) -> Result<CutParts, Fail> {
    let units = vec![in alloc;
        Listed::new(vec![in alloc; (1, -1)]?),
        Listed::new(vec![in alloc; (0, 1)]?),
    ]?;
    Ok(CutParts {
        tight: Listed::new(vec![in alloc; Tight::Upper(1), Tight::Lower(0)]?),
        den: 1,
        units: Listed::new(units),
        point: Listed::new(vec![in alloc; 0, 2]?),
        response: Listed::new(vec![in alloc; 0]?),
    })
}

/// The cut of these parts on the whole box.
fn cut(alloc: Global, model: &Arc<Bilevel, Global>) -> Result<ProvedCut, Fail> {
    let root = Box2::root(alloc, model)?;
    let area = Arc::new(alloc, Box2::root(alloc, model)?)?;
    if !area.within(&root) {
        return Err("no part of the model's box".into());
    }
    let earlier = Cuts::none(alloc)?;
    match prove_cut(alloc, model.clone()?, area, earlier, parts(alloc)?) {
        Ok(cut) => Ok(cut),
        Err(_) => Err("the cut isn't proved".into()),
    }
}

/// Why a leaf at the whole box with these cuts and these multipliers isn't proved.
fn refusal(
    alloc: Global,
    model: &Arc<Bilevel, Global>,
    cuts: Cuts,
    mult: &[i64],
) -> Result<Option<LeafFail>, Fail> {
    let root = Box2::root(alloc, model)?;
    let area = Arc::new(alloc, Box2::root(alloc, model)?)?;
    if !area.within(&root) {
        return Err("no part of the model's box".into());
    }
    let mult = Listed::new(mult.to_vec(alloc)?);
    let leaf = Leaf::Bounded {
        proof: Proof { den: 0, mult },
        cuts,
        value_row: None,
    };
    Ok(prove_leaf(alloc, model.clone()?, area, None, leaf).err())
}

#[test]
fn a_cut_is_cited_once(rt: HostRuntime) -> Result<(), Fail> {
    let alloc = rt.alloc();
    let model = Arc::new(alloc, two_sums(alloc)?)?;
    let first = Arc::new(alloc, cut(alloc, &model)?)?;
    let equal = Arc::new(alloc, cut(alloc, &model)?)?;
    let once = Cuts::none(alloc)?.add(alloc, first.clone()?)?;
    let twice = once.add(alloc, first)?;
    let with_equal = once.add(alloc, equal)?;
    let of_one = refusal(alloc, &model, once, &[0, 0, 0])?;
    assert_eq!(rt; of_one, Some(LeafFail::Proof));
    for cuts in [twice, with_equal] {
        let of_two = refusal(alloc, &model, cuts, &[0, 0, 0, 0])?;
        assert_eq!(rt; of_two, Some(LeafFail::TooMany));
    }
    Ok(())
}
