//! Programs made of two texts, and tests of points, at answers worked out by hand.

ghost use Rattle.std.specs.Prelude.{◌≡◌, [], length, All, IfOk};
ghost use Rattle.bl_raw.specs.Raw.{IsRawModel, FitsModel, IsRow, IsColumn, IsSmall, IsSense};

use super::*;
use std::alloc::Global;
use std::sync::Arc;
use std::test::Fail;

/// What is expected of a row: its coefficients, its right side, and whether it is the follower's.
type Want = ([i64; 2], i64, bool);

fn name(alloc: Global, letter: u8) -> Result<Name, Fail> {
    Ok(Listed::new(vec![in alloc; letter]?))
}

fn row(alloc: Global, lo: Option<i64>, hi: Option<i64>) -> Result<RawRow, Fail>
    requires { IsRow (record { name = []; lo = lo; hi = hi }) }
    ensures { IfOk result IsRow }
{
    Ok(RawRow {
        name: name(alloc, b'R')?,
        lo,
        hi,
    })
}

/// A column from 0 to 10 with these coefficients in four rows.
fn column(alloc: Global, cost: i64, coef: [i64; 4]) -> Result<RawColumn, Fail>
    requires cost { IsSmall cost }
    requires coef { All IsSmall coef }
    ensures { IfOk result (IsColumn 4) }
{
    let [first, second, third, fourth] = coef;
    let entries = vec![in alloc; (0, first), (1, second), (2, third), (3, fourth)]?;
    Ok(RawColumn {
        name: name(alloc, b'C')?,
        lo: 0,
        hi: 10,
        cost,
        entries: Listed::new(entries),
    })
}

/// Moore and Bard's rows and columns, with these sides in place of theirs.
fn moore_and_bard(alloc: Global, rows: [RawRow; 4]) -> Result<RawMps, Fail>
    requires { All IsRow rows }
    ensures limits { IfOk result IsRawModel }
    ensures columns { IfOk result (λ mps. length mps.columns ≡ 2) }
    ensures rows { IfOk result (λ mps. length mps.rows ≡ 4) }
{
    let columns = vec![in alloc;
        column(alloc, -1, [-25, 1, 2, 2])?,
        column(alloc, -10, [20, 2, -1, 10])?,
    ]?;
    Ok(RawMps {
        maximise: false,
        objective: name(alloc, b'Z')?,
        rows: Listed::new(Vec::from_array(alloc, rows)?),
        columns: Listed::new(columns),
    })
}

/// The follower's columns and rows, his costs and his sense.
fn follower(
    alloc: Global,
    columns: &[u32],
    rows: &[u32],
    costs: &[i64],
    sense: i64,
) -> Result<RawAux, Fail>
    ensures { IfOk result
        (λ aux. aux ≡ record { columns = columns.now; rows = rows.now; costs = costs.now; sense = sense }) }
{
    Ok(RawAux {
        columns: Listed::new(columns.to_vec(alloc)?),
        rows: Listed::new(rows.to_vec(alloc)?),
        costs: Listed::new(costs.to_vec(alloc)?),
        sense,
    })
}

/// Moore and Bard's program, all of whose rows are the follower's.
fn follower_rows(alloc: Global) -> Result<Bilevel, Fail> {
    let rows = [
        row(alloc, None, Some(30))?,
        row(alloc, None, Some(10))?,
        row(alloc, None, Some(15))?,
        row(alloc, Some(15), None)?,
    ];
    let aux = follower(alloc, &[1], &[0, 1, 2, 3], &[1], 1)?;
    Ok(build(alloc, &moore_and_bard(alloc, rows)?, &aux)?)
}

/// The same coefficients: X is the follower's, who maximises 3 X under the first row, a range. The
/// second row is an equation.
fn two_sides(alloc: Global) -> Result<Bilevel, Fail> {
    let rows = [
        row(alloc, Some(-5), Some(30))?,
        row(alloc, Some(10), Some(10))?,
        row(alloc, None, Some(15))?,
        row(alloc, Some(15), None)?,
    ];
    let aux = follower(alloc, &[0], &[0], &[3], -1)?;
    Ok(build(alloc, &moore_and_bard(alloc, rows)?, &aux)?)
}

/// Whether these are the model's rows, in this order.
fn has_rows(model: &Bilevel, want: &[Want]) -> bool {
    let rows = model.rows();
    rows.len() == want.len()
        && rows.iter().zip(want).all(|(row, (coef, right, lower))| {
            row.coef.as_slice() == coef.as_slice() && row.right == *right && row.lower == *lower
        })
}

/// Whether the follower's columns, his costs and the linking columns are these.
fn has_follower(model: &Bilevel, columns: &[u32], costs: &[i64], links: &[u32]) -> bool {
    model.follower() == columns && model.follower_cost() == costs && model.links() == links
}

/// Of a point in the box, whether it meets all rows and the follower's rows, and its two costs.
fn tested(model: &Bilevel, z: &[i64]) -> Option<(bool, bool, i64, i64)> {
    if !model.in_box(z) {
        return None;
    }
    let (rows, lower) = (model.meets_rows(z), model.meets_lower(z));
    Some((rows, lower, model.cost_of(z), model.follower_of(z)))
}

#[test]
fn joins_moore_and_bard(rt: HostRuntime) -> Result<(), Fail> {
    let model = follower_rows(rt.alloc())?;
    let want: [Want; 4] = [
        ([-25, 20], 30, true),
        ([1, 2], 10, true),
        ([2, -1], 15, true),
        ([-2, -10], -15, true),
    ];
    assert!(rt; has_rows(&model, &want));
    assert!(rt; has_follower(&model, &[1], &[0, 1], &[0]));
    assert_eq!(rt; model.sense(), 1);
    Ok(())
}

#[test]
fn joins_two_sides_and_a_maximum(rt: HostRuntime) -> Result<(), Fail> {
    let model = two_sides(rt.alloc())?;
    let want: [Want; 6] = [
        ([-25, 20], 30, true),
        ([25, -20], 5, true),
        ([1, 2], 10, false),
        ([-1, -2], -10, false),
        ([2, -1], 15, false),
        ([-2, -10], -15, false),
    ];
    assert!(rt; has_rows(&model, &want));
    assert!(rt; has_follower(&model, &[0], &[-3, 0], &[1]));
    assert_eq!(rt; model.sense(), -1);
    Ok(())
}

#[test]
fn tests_points(rt: HostRuntime) -> Result<(), Fail> {
    let model = follower_rows(rt.alloc())?;
    // (2, 2) is the optimum, (2, 4) what the leader alone would choose; (0, 0) breaks the last row.
    let points = [
        ([2, 2], Some((true, true, -22, 2))),
        ([2, 4], Some((true, true, -42, 4))),
        ([0, 0], Some((false, false, 0, 0))),
        ([11, 0], None),
        ([0, -1], None),
    ];
    for (z, want) in points {
        assert_eq!(rt; tested(&model, &z), want, "{z:?}");
    }
    Ok(())
}

#[test]
fn tests_points_at_both_sides(rt: HostRuntime) -> Result<(), Fail> {
    let model = two_sides(rt.alloc())?;
    // (1, 1) meets the follower's row at its lower side, and (2, 4) at its upper one.
    let points = [
        ([1, 1], Some((false, true, -11, -3))),
        ([2, 4], Some((true, true, -42, -6))),
        ([2, 2], Some((false, false, -22, -6))),
    ];
    for (z, want) in points {
        assert_eq!(rt; tested(&model, &z), want, "{z:?}");
    }
    Ok(())
}

/// Whether the box has these ranges.
fn has_ranges(area: &Box2, lo: &[i64], hi: &[i64]) -> bool {
    area.lo() == lo && area.hi() == hi
}

/// The two halves, none where the place doesn't split the column.
fn split(
    alloc: Global,
    parent: Arc<Box2, Global>,
    column: u32,
    at: i64,
) -> Result<Option<Halves>, Fail> {
    let place = column as usize;
    if place >= parent.lo().len() || at < parent.lo()[place] || parent.hi()[place] <= at {
        return Ok(None);
    }
    Ok(Some(Halves::make(alloc, parent, column, at)?))
}

/// The half of a model's box that has 0 alone in the column.
fn zero_half(alloc: Global, model: &Bilevel, column: u32) -> Result<Arc<Box2, Global>, Fail> {
    let root = Arc::new(alloc, Box2::root(alloc, model)?)?;
    match split(alloc, root.clone()?, column, 0)? {
        Some(halves) => Ok(halves.low().clone()?),
        None => Ok(root),
    }
}

/// Whether the box fixes both columns, none where one isn't there.
fn fixes_both(area: &Box2, first: u32, second: u32) -> Option<bool> {
    let count = area.lo().len();
    if first as usize >= count || second as usize >= count {
        return None;
    }
    Some(area.fixes(&[first, second]))
}

/// The link of a point, none where it isn't in the box.
fn linked(alloc: Global, model: &Bilevel, z: &[i64]) -> Result<Option<Vec<i64>>, Fail> {
    if !model.in_box(z) {
        return Ok(None);
    }
    Ok(Some(model.link_of(alloc, z)?))
}

#[test]
fn splits_a_box(rt: HostRuntime) -> Result<(), Fail> {
    let alloc = rt.alloc();
    let root = Arc::new(alloc, Box2::root(alloc, &follower_rows(alloc)?)?)?;
    assert!(rt; has_ranges(&root, &[0, 0], &[10, 10]));
    assert!(rt; split(alloc, root.clone()?, 0, 10)?.is_none());
    match split(alloc, root.clone()?, 0, 4)? {
        Some(halves) => {
            assert!(rt; halves.parent().is_same(&root));
            assert!(rt; has_ranges(halves.low(), &[0, 0], &[4, 10]));
            assert!(rt; has_ranges(halves.high(), &[5, 0], &[10, 10]));
            assert_eq!(rt; (halves.column(), halves.at()), (0, 4));
            assert!(rt; halves.high().within(&root) && !root.within(halves.high()));
        }
        None => assert!(rt; false),
    }
    Ok(())
}

#[test]
fn tests_boxes(rt: HostRuntime) -> Result<(), Fail> {
    let alloc = rt.alloc();
    let half = zero_half(alloc, &follower_rows(alloc)?, 0)?;
    assert!(rt; half.contains(&[0, 10]) && !half.contains(&[1, 10]) && !half.contains(&[0]));
    assert_eq!(rt; fixes_both(&half, 0, 0), Some(true));
    assert_eq!(rt; fixes_both(&half, 0, 1), Some(false));
    assert!(rt; !half.single());
    match split(alloc, half, 1, 0)? {
        Some(halves) => assert!(rt; halves.low().single() && !halves.high().single()),
        None => assert!(rt; false),
    }
    Ok(())
}

#[test]
fn links_and_equality(rt: HostRuntime) -> Result<(), Fail> {
    let alloc = rt.alloc();
    let (model, other) = (follower_rows(alloc)?, two_sides(alloc)?);
    // X links in the first model, and Y in the other.
    assert_eq!(rt; linked(alloc, &model, &[2, 4])?, Some(vec![in alloc; 2]?));
    assert_eq!(rt; linked(alloc, &other, &[2, 4])?, Some(vec![in alloc; 4]?));
    assert!(rt; linked(alloc, &model, &[11, 0])?.is_none());
    assert!(rt; same(&model, &follower_rows(alloc)?) && !same(&model, &other));
    Ok(())
}
