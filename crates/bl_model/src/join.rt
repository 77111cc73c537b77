//! The program that is made of the two texts.

ghost use Rattle.std.specs.Prelude.{◌≡◌, ◌++◌, ◌<◌, ◌^◌, not, ◌&&◌, neg_ℤ, pos, ◌*ℤ◌, length, map, All, IfOk, IfSome};
ghost use Rattle.std.specs.Prelude.{OnOk};
ghost use Rattle.bl_whole.specs.Sums.{component};
ghost use Rattle.std.specs.List.{range_with_len};
ghost use Rattle.std.specs.Ordering.{int_eq};
ghost use Rattle.bl_raw.specs.Raw.{IsRawModel, FitsModel, IsSmall, IsSide, IsSense, IsRow, IsColumn};
ghost use Rattle.bl_terms.specs.Points.{is_among};
ghost use Rattle.bl_terms.specs.Programs.{is_in_lower, is_linking, places_where};
ghost use Rattle.bl_model.specs.Build.{dense_column, rhs_row, lhs_row, rows_from, follower_numbers, leader_sense_of};
ghost use Rattle.bl_model.specs.Build.{number_for, program_of};

use crate::bilevel::Bilevel;
use crate::places::{marked, marks, numbers};
use crate::row::BRow;
use bl_raw::{Listed, RawAux, RawColumn, RawMps, RawRow};
use std::alloc::{AllocError, Global};

// The coefficients of each column, one for each row.
fn dense_columns(
    alloc: Global,
    columns: &[RawColumn],
    row_count: usize,
) -> Result<Vec<Listed<i64>>, AllocError>
    requires { All (IsColumn row_count) columns.now }
    ensures { IfOk result (λ dense. dense.items ≡ map (λ c. dense_column row_count c) columns.now) }
{
    let mut dense = Vec::new(alloc);
    for column in columns {
        dense.push(Listed::new(numbers(alloc, row_count, column.entries.as_slice())?))?;
    }
    Ok(dense)
}

// The coefficients of a row, one for each column.
fn row_coefficients(
    alloc: Global,
    dense: &[Listed<i64>],
    row: usize,
) -> Result<Vec<i64>, AllocError>
    ensures { IfOk result (λ coef. coef.items ≡ map (λ numbers. component numbers row) dense.now) }
{
    let mut coef = Vec::with_capacity(alloc, dense.len())?;
    for numbers in dense {
        coef.push(numbers.as_slice().get(row).copied().unwrap_or(0))?;
    }
    Ok(coef)
}

fn negated(alloc: Global, coef: &[i64]) -> Result<Vec<i64>, AllocError>
    requires { All IsSmall coef.now }
    ensures { IfOk result (λ negated. negated.items ≡ map neg_ℤ coef.now) }
{
    let mut negated = Vec::with_capacity(alloc, coef.len())?;
    for number in coef {
        negated.push(-*number)?;
    }
    Ok(negated)
}

fn push_rhs_row(
    alloc: Global,
    rows: &mut Vec<BRow>,
    coef: &[i64],
    lower: bool,
    hi: Option<i64>,
) -> Result<(), AllocError>
    ensures { OnOk result (rows.new.items ≡ rows.old.items ++ rhs_row coef.now lower hi) }
{
    if let Some(right) = hi {
        let coef = coef.to_vec(alloc)?;
        rows.push(BRow { coef, right, lower })?;
    }
    Ok(())
}

fn push_lhs_row(
    alloc: Global,
    rows: &mut Vec<BRow>,
    coef: &[i64],
    lower: bool,
    lo: Option<i64>,
) -> Result<(), AllocError>
    requires lo { IfSome lo IsSide }
    requires coef { All IsSmall coef.now }
    ensures { OnOk result (rows.new.items ≡ rows.old.items ++ lhs_row coef.now lower lo) }
{
    if let Some(lo) = lo {
        let coef = negated(alloc, coef)?;
        rows.push(BRow {
            coef,
            right: -lo,
            lower,
        })?;
    }
    Ok(())
}

// Adds the rows of a row of the text: that of its right-hand side and then that of its left-hand side.
fn push_sides(
    alloc: Global,
    rows: &mut Vec<BRow>,
    coef: &[i64],
    lower: bool,
    row: &RawRow,
) -> Result<(), AllocError>
    requires coef { All IsSmall coef.now }
    requires row { IsRow row.now }
    ensures { OnOk result (rows.new.items
        ≡ rows.old.items ++ (rhs_row coef.now lower row.now.hi ++ lhs_row coef.now lower row.now.lo)) }
{
    push_rhs_row(alloc, rows, coef, lower, row.hi)?;
    push_lhs_row(alloc, rows, coef, lower, row.lo)
}

// The rows of the program, in the order of the text.
fn program_rows(
    alloc: Global,
    columns: &[RawColumn],
    text_rows: &[RawRow],
    lower_rows: &[u32],
) -> Result<Vec<BRow>, AllocError>
    requires columns { All (IsColumn (length text_rows.now)) columns.now }
    requires text_rows { All IsRow text_rows.now }
    requires lower_rows { All (λ r. r < length text_rows.now) lower_rows.now }
    ensures { IfOk result (λ rows. rows.items ≡ rows_from columns.now lower_rows.now 0 text_rows.now) }
{
    let dense = dense_columns(alloc, columns, text_rows.len())?;
    let lower = marks(alloc, text_rows.len(), lower_rows)?;
    let mut rows = Vec::new(alloc);
    for (at, row) in text_rows.iter().enumerate() {
        let coef = row_coefficients(alloc, &dense, at)?;
        push_sides(alloc, &mut rows, &coef, lower[at], row)?;
    }
    Ok(rows)
}

// A cost of the follower, negated where it maximises.
fn minimised(cost: i64, sense: i64) -> i64
    requires cost { IsSmall cost }
    requires sense { IsSense sense }
    ensures { result ≡ cost *ℤ sense }
{
    cost * sense
}

// The follower's columns, each with its cost to be minimised.
fn follower_pairs(alloc: Global, aux: &RawAux) -> Result<Vec<(u32, i64)>, AllocError>
    requires count { length aux.now.costs ≡ length aux.now.columns }
    requires costs { All IsSmall aux.now.costs }
    requires sense { IsSense aux.now.sense }
    ensures { IfOk result (λ pairs. pairs.items ≡ follower_numbers aux.now) }
{
    let columns = aux.columns.as_slice();
    let costs = aux.costs.as_slice();
    let mut pairs = Vec::with_capacity(alloc, columns.len())?;
    for (at, column) in columns.iter().enumerate() {
        pairs.push((*column, minimised(costs[at], aux.sense)))?;
    }
    Ok(pairs)
}

// Whether the row is the follower's and has a coefficient other than 0 in the column.
fn stands_in(row: &BRow, column: usize) -> bool
    ensures { result ≡ (row.now.lower && not (int_eq (component row.now.coef column) (pos 0))) }
{
    row.lower && row.coef.get(column).copied().unwrap_or(0) != 0
}

// Whether some row of the follower has a coefficient other than 0 in the column.
fn stands_in_lower(rows: &[BRow], column: usize) -> bool
    ensures { result ≡ is_in_lower rows.now (length rows.now) column }
{
    let mut stands = false;
    for i in 0..rows.len() {
        stands = stands || stands_in(&rows[i], column);
    }
    stands
}

// Whether a column links: it isn't the follower's, and stands in a row of the follower.
fn links(follows: bool, rows: &[BRow], column: usize) -> bool
    ensures { result ≡ (not follows && is_in_lower rows.now (length rows.now) column) }
{
    !follows && stands_in_lower(rows, column)
}

// The follower's columns, in rising order.
fn follower_places(
    alloc: Global,
    column_count: usize,
    follower: &[u32],
) -> Result<Vec<u32>, AllocError>
    requires columns { All (λ c. c < column_count) follower.now }
    requires few { column_count < 2 ^ 32 }
    ensures { IfOk result (λ places. places.items ≡ places_where (λ k. is_among k follower.now) column_count) }
{
    let is_follower = marks(alloc, column_count, follower)?;
    marked(alloc, &is_follower)
}

// The linking columns, in rising order.
fn link_places(
    alloc: Global,
    column_count: usize,
    follower: &[u32],
    rows: &[BRow],
) -> Result<Vec<u32>, AllocError>
    requires columns { All (λ c. c < column_count) follower.now }
    requires few { column_count < 2 ^ 32 }
    ensures { IfOk result (λ places. places.items ≡ places_where (is_linking follower.now rows.now) column_count) }
{
    let is_follower = marks(alloc, column_count, follower)?;
    let mut places = Vec::new(alloc);
    for column in 0..column_count {
        if links(is_follower[column], rows, column) {
            places.push(column as u32)?;
        }
    }
    Ok(places)
}

// The follower's cost of each column.
fn follower_costs(alloc: Global, column_count: usize, aux: &RawAux) -> Result<Vec<i64>, AllocError>
    requires columns { All (λ c. c < column_count) aux.now.columns }
    requires count { length aux.now.costs ≡ length aux.now.columns }
    requires costs { All IsSmall aux.now.costs }
    requires sense { IsSense aux.now.sense }
    ensures { IfOk result
        (λ costs. costs.items ≡ map (number_for (follower_numbers aux.now)) (range_with_len 0 column_count)) }
{
    let pairs = follower_pairs(alloc, aux)?;
    numbers(alloc, column_count, &pairs)
}

fn lows(alloc: Global, columns: &[RawColumn]) -> Result<Vec<i64>, AllocError>
    ensures { IfOk result (λ lows. lows.items ≡ map (λ c. c.lo) columns.now) }
{
    columns.iter().map(|column| column.lo).collect(alloc)
}

fn highs(alloc: Global, columns: &[RawColumn]) -> Result<Vec<i64>, AllocError>
    ensures { IfOk result (λ highs. highs.items ≡ map (λ c. c.hi) columns.now) }
{
    columns.iter().map(|column| column.hi).collect(alloc)
}

// The sense of the leader: 1 where it minimises and -1 where it maximises.
fn leader_sense(maximise: bool) -> i64
    ensures value { result ≡ leader_sense_of maximise }
    ensures sense { IsSense result }
{
    if maximise { -1 } else { 1 }
}

// The cost of a column to the leader, which is to be minimised.
fn leader_cost(column: &RawColumn, maximise: bool) -> i64
    requires { IsSmall column.now.cost }
    ensures { result ≡ column.now.cost *ℤ leader_sense_of maximise }
{
    minimised(column.cost, leader_sense(maximise))
}

fn costs(alloc: Global, columns: &[RawColumn], maximise: bool) -> Result<Vec<i64>, AllocError>
    requires { All (λ c. IsSmall c.cost) columns.now }
    ensures { IfOk result (λ costs. costs.items ≡ map (λ c. c.cost *ℤ leader_sense_of maximise) columns.now) }
{
    let mut costs = Vec::with_capacity(alloc, columns.len())?;
    for column in columns {
        costs.push(leader_cost(column, maximise))?;
    }
    Ok(costs)
}

/// Makes the program that the two texts describe: for each row of the MPS text in order its
/// right-hand side as `coef·z <= hi` and then its left-hand side as `-coef·z <= -lo`, the
/// costs of the leader and of the follower, each negated where it maximises, and the linking
/// columns, which are those of the leader that stand in a row of the follower.
pub fn build(alloc: Global, mps: &RawMps, aux: &RawAux) -> Result<Bilevel, AllocError>
    requires mps { IsRawModel mps.now }
    requires aux { FitsModel (length mps.now.columns) (length mps.now.rows) aux.now }
    ensures { IfOk result (λ model. model ≡ program_of mps.now aux.now) }
{
    let columns = mps.columns.as_slice();
    let count = columns.len();
    let text_rows = mps.rows.as_slice();
    let follower = aux.columns.as_slice();
    let lower_rows = aux.rows.as_slice();
    let rows = program_rows(alloc, columns, text_rows, lower_rows)?;
    let links = link_places(alloc, count, follower, &rows)?;
    Ok(Bilevel {
        lo: lows(alloc, columns)?,
        hi: highs(alloc, columns)?,
        rows,
        cost: costs(alloc, columns, mps.maximise)?,
        follower_cost: follower_costs(alloc, count, aux)?,
        follower: follower_places(alloc, count, follower)?,
        links,
        sense: aux.sense,
        leader_sense: leader_sense(mps.maximise),
    })
}
