//! The programs. In each X leads, and Y, or Y1 and Y2, follow.
ghost use Rattle.std.specs.Prelude.{◌≡◌, ◌⊎◌, neg_ℤ, pos};
ghost use Rattle.bl_raw.specs.Raw.{FitsModel, IsSide};

use crate::parts::{column, follower, program, row};
use bl_model::{Bilevel, RawAux};
use std::alloc::{AllocError, Global};

/// Moore and Bard's program (1990) with this cost of X.
fn moore_bard_with(alloc: Global, cost: i64) -> Result<Bilevel, AllocError>
    requires { (cost ≡ neg_ℤ (pos 1)) ⊎ (cost ≡ neg_ℤ (pos 2)) }
{
    let rows = vec![in alloc;
        row(alloc, None, Some(30))?,
        row(alloc, None, Some(10))?,
        row(alloc, None, Some(15))?,
        row(alloc, Some(15), None)?,
    ]?;
    let columns = vec![in alloc;
        column(alloc, 4, 0, 10, cost, &[(0, -25), (1, 1), (2, 2), (3, 2)])?,
        column(alloc, 4, 0, 10, -10, &[(0, 20), (1, 2), (2, -1), (3, 10)])?,
    ]?;
    let aux = follower(alloc, &[1], &[0, 1, 2, 3], &[1], 1)?;
    program(alloc, rows, columns, aux)
}

/// Moore and Bard's program (1990): X and Y from 0 to 10, the leader's cost -X - 10Y, the follower's Y, and the
/// follower's rows -25X + 20Y <= 30, X + 2Y <= 10, 2X - Y <= 15 and 2X + 10Y >= 15. Its answer is (2, 2) at -22.
pub fn moore_bard(alloc: Global) -> Result<Bilevel, AllocError> {
    moore_bard_with(alloc, -1)
}

/// The same with the leader's cost -2X - 10Y.
pub fn dearer_moore_bard(alloc: Global) -> Result<Bilevel, AllocError> {
    moore_bard_with(alloc, -2)
}

/// X up to 3 with the leader's cost Y - 2X, and Y up to 5 in the follower's row Y <= X.
fn under_leader(alloc: Global, aux: RawAux) -> Result<Bilevel, AllocError>
    requires { FitsModel 2 1 aux }
{
    let rows = vec![in alloc; row(alloc, None, Some(0))?]?;
    let columns = vec![in alloc;
        column(alloc, 1, 0, 3, -2, &[(0, -1)])?,
        column(alloc, 1, 0, 5, 1, &[(0, 1)])?,
    ]?;
    program(alloc, rows, columns, aux)
}

/// X up to 3 with the leader's cost Y - 2X, and Y up to 5 in the follower's row Y <= X, of which he wants as much as he
/// can get. The answer is (3, 3) at -3.
pub fn most_under_leader(alloc: Global) -> Result<Bilevel, AllocError> {
    let aux = follower(alloc, &[1], &[0], &[1], -1)?;
    under_leader(alloc, aux)
}

/// The same, where he wants as little as he can get. The answer is (3, 0) at -6.
pub fn least_under_leader(alloc: Global) -> Result<Bilevel, AllocError> {
    let aux = follower(alloc, &[1], &[0], &[1], 1)?;
    under_leader(alloc, aux)
}

/// X, Y1 and Y2 up to 1, the leader's cost -Y1 - Y2 and his row Y1 + Y2 <= 1; the follower has no cost and no row. The
/// answer costs -1.
pub fn equal_responses(alloc: Global) -> Result<Bilevel, AllocError> {
    let rows = vec![in alloc; row(alloc, None, Some(1))?]?;
    let columns = vec![in alloc;
        column(alloc, 1, 0, 1, 0, &[])?,
        column(alloc, 1, 0, 1, -1, &[(0, 1)])?,
        column(alloc, 1, 0, 1, -1, &[(0, 1)])?,
    ]?;
    let aux = follower(alloc, &[1, 2], &[], &[0, 0], 1)?;
    program(alloc, rows, columns, aux)
}

/// X and Y up to 1, the leader's row Y >= 1 and his cost X, and the follower's cost Y without a row. No point is
/// bilevel feasible.
pub fn leader_row(alloc: Global) -> Result<Bilevel, AllocError> {
    let rows = vec![in alloc; row(alloc, Some(1), None)?]?;
    let columns = vec![in alloc;
        column(alloc, 1, 0, 1, 1, &[])?,
        column(alloc, 1, 0, 1, 0, &[(0, 1)])?,
    ]?;
    let aux = follower(alloc, &[1], &[], &[1], 1)?;
    program(alloc, rows, columns, aux)
}

/// Two leader's columns X and X' up to 3 at -2X - 3X', in the row X + 2X' <= 4, and no follower. The answer is (2, 1)
/// at -7.
pub fn no_follower(alloc: Global) -> Result<Bilevel, AllocError> {
    let rows = vec![in alloc; row(alloc, None, Some(4))?]?;
    let columns = vec![in alloc;
        column(alloc, 1, 0, 3, -2, &[(0, 1)])?,
        column(alloc, 1, 0, 3, -3, &[(0, 2)])?,
    ]?;
    let aux = follower(alloc, &[], &[], &[], 1)?;
    program(alloc, rows, columns, aux)
}

/// X is 3 and costs 2X, with the row X <= `rhs`: the answer costs 6 where that is at least 3.
pub fn one_point(alloc: Global, rhs: i64) -> Result<Bilevel, AllocError>
    requires { IsSide rhs }
{
    let rows = vec![in alloc; row(alloc, None, Some(rhs))?]?;
    let columns = vec![in alloc; column(alloc, 1, 3, 3, 2, &[(0, 1)])?]?;
    let aux = follower(alloc, &[], &[], &[], 1)?;
    program(alloc, rows, columns, aux)
}

/// X and Y up to 1, the leader's cost -X, and the follower's cost 3Y in his row 2Y >= 1, in which X doesn't stand. His
/// relaxation has Y = 1/2. The answer is (1, 1) at -1.
pub fn half(alloc: Global) -> Result<Bilevel, AllocError> {
    let rows = vec![in alloc; row(alloc, Some(1), None)?]?;
    let columns = vec![in alloc;
        column(alloc, 1, 0, 1, -1, &[])?,
        column(alloc, 1, 0, 1, 0, &[(0, 2)])?,
    ]?;
    let aux = follower(alloc, &[1], &[0], &[3], 1)?;
    program(alloc, rows, columns, aux)
}

/// X up to 1 and Y up to 2 without a leader's cost, and the follower's cost Y in his row X + Y <= 3.
pub fn two_sums(alloc: Global) -> Result<Bilevel, AllocError> {
    let rows = vec![in alloc; row(alloc, None, Some(3))?]?;
    let columns = vec![in alloc;
        column(alloc, 1, 0, 1, 0, &[(0, 1)])?,
        column(alloc, 1, 0, 2, 0, &[(0, 1)])?,
    ]?;
    let aux = follower(alloc, &[1], &[0], &[1], 1)?;
    program(alloc, rows, columns, aux)
}
