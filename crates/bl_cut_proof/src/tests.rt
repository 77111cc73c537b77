//! Cuts of Moore and Bard's program (1990) and of small programs, worked out by hand.

use super::*;
use bl_cut::{CutParts, Cuts, ProvedCut, Tight};
use bl_examples::{moore_bard, two_sums};
use bl_model::{Bilevel, Box2, Listed};
use std::alloc::Global;
use std::sync::Arc;
use std::test::Fail;

fn parts(
    alloc: Global,
    tight: &[Tight],
    den: i64,
    units: [&[(u32, i64)]; 2],
    point: [i64; 2],
    response: i64,
) -> Result<CutParts, Fail> {
    let [first, second] = units;
    let units = vec![in alloc;
        Listed::new(first.to_vec(alloc)?),
        Listed::new(second.to_vec(alloc)?),
    ]?;
    Ok(CutParts {
        tight: Listed::new(tight.to_vec(alloc)?),
        den,
        units: Listed::new(units),
        point: Listed::new(Vec::from_array(alloc, point)?),
        response: Listed::new(vec![in alloc; response]?),
    })
}

/// The cut of the parts on the model's whole box.
fn prove(
    alloc: Global,
    model: &Arc<Bilevel, Global>,
    earlier: &Cuts,
    parts: CutParts,
) -> Result<Result<ProvedCut, CutFault>, Fail> {
    let root = Arc::new(alloc, Box2::root(alloc, model)?)?;
    let area = Box2::root(alloc, model)?;
    if !area.within(&root) {
        return Ok(Err(CutFault::Memory));
    }
    let area = Arc::new(alloc, area)?;
    Ok(prove_cut(alloc, model.clone()?, area, earlier.copy()?, parts))
}

fn answer(proved: Result<ProvedCut, CutFault>) -> &'static str {
    match proved {
        Ok(_) => "proved",
        Err(CutFault::Size) => "size",
        Err(CutFault::Inverse) => "inverse",
        Err(CutFault::Tight) => "tight",
        Err(CutFault::Response) => "response",
        Err(CutFault::Memory) => "memory",
    }
}

const X: [(u32, i64); 2] = [(0, -2), (1, 20)];

const Y: [(u32, i64); 2] = [(0, 1), (1, 25)];

const ROWS: [Tight; 2] = [Tight::Row(0), Tight::Row(1)];

/// The answer to parts of a cut of Moore and Bard's program.
fn tried(
    alloc: Global,
    tight: &[Tight],
    den: i64,
    units: [&[(u32, i64)]; 2],
    point: [i64; 2],
    response: i64,
) -> Result<&'static str, Fail> {
    let parts = parts(alloc, tight, den, units, point, response)?;
    let model = Arc::new(alloc, moore_bard(alloc)?)?;
    let none = Cuts::none(alloc)?;
    Ok(answer(prove(alloc, &model, &none, parts)?))
}

#[test]
fn each_fault_alone(rt: HostRuntime) -> Result<(), Fail> {
    let alloc = rt.alloc();
    let turned = [Tight::Row(1), Tight::Row(0)];
    let twice = [Tight::Row(0), Tight::Row(0)];
    assert_eq!(rt; tried(alloc, &ROWS, 70, [&X, &Y], [2, 4], 2)?, "proved");
    assert_eq!(rt; tried(alloc, &turned, 70, [&X, &Y], [2, 4], 2)?, "size");
    assert_eq!(rt; tried(alloc, &twice, 70, [&X, &Y], [2, 4], 2)?, "size");
    assert_eq!(rt; tried(alloc, &ROWS, 0, [&X, &Y], [2, 4], 2)?, "size");
    assert_eq!(rt; tried(alloc, &ROWS, 70, [&X, &X], [2, 4], 2)?, "inverse");
    assert_eq!(rt; tried(alloc, &ROWS, 70, [&X, &Y], [2, 3], 2)?, "tight");
    assert_eq!(rt; tried(alloc, &ROWS, 70, [&X, &Y], [2, 4], 4)?, "response");
    assert_eq!(rt; tried(alloc, &ROWS, 70, [&X, &Y], [2, 4], 1)?, "response");
    Ok(())
}

#[test]
fn a_cut_that_uses_another(rt: HostRuntime) -> Result<(), Fail> {
    let alloc = rt.alloc();
    let model = Arc::new(alloc, two_sums(alloc)?)?;
    let none = Cuts::none(alloc)?;
    let sides = [Tight::Upper(1), Tight::Lower(0)];
    let first = parts(alloc, &sides, 1, [&[(1, -1)], &[(0, 1)]], [0, 2], 0)?;
    let Ok(first) = prove(alloc, &model, &none, first)? else {
        assert!(rt; false);
        return Ok(());
    };
    assert_eq!(rt; first.coef(), [-1, 1].as_slice());
    assert_eq!(rt; first.right(), 1);
    let cuts = none.add(alloc, Arc::new(alloc, first)?)?;
    let tight = [Tight::Lower(0), Tight::Cut(0)];
    let second = parts(
        alloc,
        &tight,
        1,
        [&[(0, -1)], &[(0, -1), (1, 1)]],
        [0, 1],
        0,
    )?;
    let Ok(second) = prove(alloc, &model, &cuts, second)? else {
        assert!(rt; false);
        return Ok(());
    };
    assert_eq!(rt; second.coef(), [-2, 1].as_slice());
    assert_eq!(rt; second.right(), 0);
    assert_eq!(rt; second.step_count(), 2);
    Ok(())
}
