//! Cuts of small programs, worked out by hand.
ghost use Rattle.std.specs.Prelude.{IfOk, IsTrue};
ghost use Rattle.bl_terms.specs.Programs.{InBox, link_of};
ghost use Rattle.bl_terms.specs.Responses.{IsResponse};

use super::*;
use bl_examples::{least_under_leader, moore_bard, two_sums};
use bl_fproof::FollowerRows;
use bl_model::{Bilevel, Box2, Halves};
use bl_point::whole_at;
use std::alloc::{AllocError, Global};
use std::sync::Arc;
use std::test::Fail;

fn is_response(
    alloc: Global,
    model: &Bilevel,
    point: &[i64],
    response: &[i64],
) -> Result<bool, AllocError>
    requires { InBox model.now point.now }
    ensures { IfOk result
        (λ is. IsTrue is → IsResponse model.now (link_of model.now point.now) response.now) }
{
    let link = model.link_of(alloc, point)?;
    let rows = FollowerRows::make(alloc, model, &link)?;
    let problem = rows.problem(alloc, rows.lo(), rows.hi())?;
    Ok(whole_at(&problem, None, response))
}

/// The cut at a point of a box, none where the point or the response isn't one.
fn made(
    alloc: Global,
    model: &Arc<Bilevel, Global>,
    area: &Arc<Box2, Global>,
    earlier: &Cuts,
    point: [i64; 2],
    response: i64,
) -> Result<Option<Result<ProvedCut, NoCut>>, Fail> {
    let root = Box2::root(alloc, model)?;
    if !area.within(&root) || !area.contains(&point) || !model.in_box(&point) {
        return Ok(None);
    }
    let response = [response];
    if !is_response(alloc, model, &point, &response)? {
        return Ok(None);
    }
    let earlier = earlier.copy()?;
    Ok(Some(make_cut(
        alloc,
        model.clone()?,
        area.clone()?,
        earlier,
        &point,
        &response,
    )))
}

fn root(alloc: Global, model: &Bilevel) -> Result<Arc<Box2, Global>, Fail> {
    Ok(Arc::new(alloc, Box2::root(alloc, model)?)?)
}

/// The box of the values of X up to a number; the whole box where that doesn't split it.
fn up_to(alloc: Global, model: &Bilevel, at: i64) -> Result<Arc<Box2, Global>, Fail> {
    let area = root(alloc, model)?;
    if area.lo().is_empty() || at < area.lo()[0] || area.hi()[0] <= at {
        return Ok(area);
    }
    let halves = Halves::make(alloc, area, 0, at)?;
    Ok(halves.low().clone()?)
}

/// Why no cut is made.
fn reason(made: Option<Result<ProvedCut, NoCut>>) -> Option<NoCut> {
    match made {
        Some(Err(reason)) => Some(reason),
        _ => None,
    }
}

/// Whether a cut is made, of these rows and with this row.
fn is_cut(
    made: &Option<Result<ProvedCut, NoCut>>,
    tight: &[Tight],
    coef: &[i64],
    right: i64,
) -> bool {
    match made {
        Some(Ok(cut)) => {
            let parts = cut.last().parts();
            parts.tight.as_slice() == tight && cut.coef() == coef && cut.right() == right
        }
        _ => false,
    }
}

#[test]
fn three_points_of_moore_and_bard(rt: HostRuntime) -> Result<(), Fail> {
    let alloc = rt.alloc();
    let model = Arc::new(alloc, moore_bard(alloc)?)?;
    let area = root(alloc, &model)?;
    let none = Cuts::none(alloc)?;
    let cut = made(alloc, &model, &area, &none, [2, 4], 2)?;
    let rows = [Tight::Row(0), Tight::Row(1)];
    assert!(rt; is_cut(&cut, &rows, &[-24, 22], 39));
    if let Some(Ok(cut)) = cut {
        let parts = cut.last().parts();
        let units = [[(0, -2), (1, 20)], [(0, 1), (1, 25)]];
        assert_eq!(rt; parts.den, 70);
        assert!(rt;
            parts
                .units
                .as_slice()
                .iter()
                .zip(&units)
                .all(|(unit, want)| unit.as_slice() == want.as_slice())
        );
    }
    let alone = reason(made(alloc, &model, &area, &none, [4, 3], 1)?);
    assert_eq!(rt; alone, Some(NoCut::NotUnique { pivots: 1 }));
    let best = reason(made(alloc, &model, &area, &none, [2, 2], 2)?);
    let costs = NoCut::NotBetter {
        point: 2,
        response: 2,
    };
    assert_eq!(rt; best, Some(costs));
    Ok(())
}

// At (1, 1) the row Y - X <= 0 and the side X <= 1 add up to Y <= 1.
#[test]
fn a_row_and_a_side(rt: HostRuntime) -> Result<(), Fail> {
    let alloc = rt.alloc();
    let model = Arc::new(alloc, least_under_leader(alloc)?)?;
    let area = up_to(alloc, &model, 1)?;
    let none = Cuts::none(alloc)?;
    let cut = made(alloc, &model, &area, &none, [1, 1], 0)?;
    assert!(rt; is_cut(&cut, &[Tight::Row(0), Tight::Upper(0)], &[0, 1], 0));
    Ok(())
}

#[test]
fn a_cut_that_uses_another(rt: HostRuntime) -> Result<(), Fail> {
    let alloc = rt.alloc();
    let model = Arc::new(alloc, two_sums(alloc)?)?;
    let area = root(alloc, &model)?;
    let none = Cuts::none(alloc)?;
    let first = made(alloc, &model, &area, &none, [0, 2], 0)?;
    assert!(rt; is_cut(&first, &[Tight::Upper(1), Tight::Lower(0)], &[-1, 1], 1));
    if let Some(Ok(first)) = first {
        let first = Arc::new(alloc, first)?;
        // The second handle to the cut adds no step.
        let cuts = none.add(alloc, first.clone()?)?.add(alloc, first)?;
        let second = made(alloc, &model, &area, &cuts, [0, 1], 0)?;
        assert!(rt; is_cut(&second, &[Tight::Lower(0), Tight::Cut(0)], &[-2, 1], 0));
        assert!(rt; second.is_some_and(|cut| cut.is_ok_and(|cut| cut.step_count() == 2)));
    }
    Ok(())
}

#[test]
fn a_cut_of_a_smaller_box(rt: HostRuntime) -> Result<(), Fail> {
    let alloc = rt.alloc();
    let model = Arc::new(alloc, two_sums(alloc)?)?;
    let part = up_to(alloc, &model, 0)?;
    let none = Cuts::none(alloc)?;
    let first = made(alloc, &model, &part, &none, [0, 2], 0)?;
    assert!(rt; is_cut(&first, &[Tight::Upper(0), Tight::Upper(1)], &[1, 1], 1));
    if let Some(Ok(first)) = first {
        let cuts = none.add(alloc, Arc::new(alloc, first)?)?;
        let area = root(alloc, &model)?;
        let whole = reason(made(alloc, &model, &area, &cuts, [0, 1], 0)?);
        assert_eq!(rt; whole, Some(NoCut::NotUnique { pivots: 1 }));
        let second = made(alloc, &model, &part, &cuts, [0, 1], 0)?;
        assert!(rt; is_cut(&second, &[Tight::Upper(0), Tight::Cut(0)], &[2, 1], 0));
    }
    Ok(())
}
