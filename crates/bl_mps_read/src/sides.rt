//! The lines under RHS and RANGES.
ghost use Rattle.std.specs.Prelude.{◌≡◌, length};
ghost use Rattle.bl_limits.specs.declared.TheConstants.{MAX_TEXT_RHS};
ghost use Rattle.bl_text.specs.Fields.{fields_of};
ghost use Rattle.bl_mps_read.specs.Numbers.{AreWithin};
ghost use Rattle.bl_mps_read.specs.Sides.{range_given, right_side_given, ranges_added, right_sides_added};
ghost use Rattle.bl_mps_read.specs.RowViews.{rows_view};
ghost use Rattle.bl_mps_read.specs.Stops.{Makes, taken_up};
ghost use Rattle.bl_mps_read.specs.Views.{pair_view, pairs_view};

use crate::fields::{Pair, Pairs, set_line};
use crate::numbers::{Numbers, read_pair};
use crate::rows::Rows;
use bl_limits::MAX_TEXT_RHS;
use bl_mps_terms::MpsRule;

/// Enters a range.
#[tactic(auto, unfolding(crate::specs::Sides::range_given))]
fn give_range(rows: &Rows, ranges: &mut Numbers, pair: Pair<'_>) -> Result<(), MpsRule>
    requires { length ranges.old ≡ length rows.now.names }
    ensures places { length ranges.new ≡ length ranges.old }
    ensures small { AreWithin MAX_TEXT_RHS ranges.old → AreWithin MAX_TEXT_RHS ranges.new }
    ensures given { Makes result ranges.new (range_given (rows_view rows.now) ranges.old (pair_view pair.entry)) }
{
    let (row, number) = read_pair(&rows.names, MAX_TEXT_RHS, pair)?;
    ranges.enter(row, number)
}

/// Enters a right-hand side. The objective has none but 0.
#[tactic(auto, unfolding(crate::specs::Sides::right_side_given))]
fn give_right_side(rows: &Rows, sides: &mut Numbers, pair: Pair<'_>) -> Result<(), MpsRule>
    requires { length sides.old ≡ length rows.now.names }
    ensures places { length sides.new ≡ length sides.old }
    ensures small { AreWithin MAX_TEXT_RHS sides.old → AreWithin MAX_TEXT_RHS sides.new }
    ensures given { Makes result sides.new (right_side_given (rows_view rows.now) sides.old (pair_view pair.entry)) }
{
    let (row, number) = read_pair(&rows.names, MAX_TEXT_RHS, pair)?;
    sides.enter(row, number)?;
    if number != 0 && rows.objective == Some(row) {
        return Err(MpsRule::ObjectiveConstant);
    }
    Ok(())
}

#[tactic(auto, unfolding(crate::specs::Stops::taken_up))]
fn give_ranges(rows: &Rows, ranges: &mut Numbers, pairs: Pairs<'_>) -> Result<(), MpsRule>
    requires { length ranges.old ≡ length rows.now.names }
    ensures places { length ranges.new ≡ length ranges.old }
    ensures small { AreWithin MAX_TEXT_RHS ranges.old → AreWithin MAX_TEXT_RHS ranges.new }
    ensures given { Makes result ranges.new
        (taken_up (range_given (rows_view rows.now)) ranges.old (pairs_view pairs.entry)) }
{
    give_range(rows, ranges, pairs.pair)?;
    match pairs.more {
        Some(pair) => give_range(rows, ranges, pair),
        None => Ok(()),
    }
}

#[tactic(auto, unfolding(crate::specs::Stops::taken_up))]
fn give_right_sides(rows: &Rows, sides: &mut Numbers, pairs: Pairs<'_>) -> Result<(), MpsRule>
    requires { length sides.old ≡ length rows.now.names }
    ensures places { length sides.new ≡ length sides.old }
    ensures small { AreWithin MAX_TEXT_RHS sides.old → AreWithin MAX_TEXT_RHS sides.new }
    ensures given { Makes result sides.new
        (taken_up (right_side_given (rows_view rows.now)) sides.old (pairs_view pairs.entry)) }
{
    give_right_side(rows, sides, pairs.pair)?;
    match pairs.more {
        Some(pair) => give_right_side(rows, sides, pair),
        None => Ok(()),
    }
}

/// Takes up a line under RANGES.
#[tactic(auto, unfolding(crate::specs::Sides::ranges_added))]
pub fn add_ranges(rows: &Rows, ranges: &mut Numbers, line: &[u8]) -> Result<(), MpsRule>
    requires { length ranges.old ≡ length rows.now.names }
    ensures places { length ranges.new ≡ length ranges.old }
    ensures small { AreWithin MAX_TEXT_RHS ranges.old → AreWithin MAX_TEXT_RHS ranges.new }
    ensures added { Makes result ranges.new (ranges_added (rows_view rows.now) ranges.old (fields_of line.now)) }
{
    let pairs = set_line(line).ok_or(MpsRule::BadFields)?;
    give_ranges(rows, ranges, pairs)
}

/// Takes up a line under RHS.
#[tactic(auto, unfolding(crate::specs::Sides::right_sides_added))]
pub fn add_right_sides(rows: &Rows, sides: &mut Numbers, line: &[u8]) -> Result<(), MpsRule>
    requires { length sides.old ≡ length rows.now.names }
    ensures places { length sides.new ≡ length sides.old }
    ensures small { AreWithin MAX_TEXT_RHS sides.old → AreWithin MAX_TEXT_RHS sides.new }
    ensures added { Makes result sides.new (right_sides_added (rows_view rows.now) sides.old (fields_of line.now)) }
{
    let pairs = set_line(line).ok_or(MpsRule::BadFields)?;
    give_right_sides(rows, sides, pairs)
}
