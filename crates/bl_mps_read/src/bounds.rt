//! The lines under BOUNDS.
ghost use Rattle.std.specs.Prelude.{◌≡◌, All, IfOk, IfSome, length};
ghost use Rattle.bl_text.specs.Fields.{fields_of};
ghost use Rattle.bl_mps_terms.specs.Lines.{lower_set, upper_set, makes_integer, sets_lower, bound_read};
ghost use Rattle.bl_mps_read.specs.Bounds.{IsSmallBound, AreSmall, no_bounds, with_bound, bound_added};
ghost use Rattle.bl_mps_read.specs.Stops.{Makes};
ghost use Rattle.std.specs.Option.{option_map};

use crate::fields::bound_line;
use crate::names::NameTable;
use crate::numbers::bound_within;
use bl_mps_terms::{BoundKind, MpsRule};

/// What the lines so far make of a column's bounds.
#[derive(Clone, Copy)]
pub struct Bounds {
    pub integer: bool,
    /// Some line names the column.
    pub named: bool,
    /// Some line sets the lower bound.
    pub sets_lower: bool,
    pub lower: Option<i64>,
    pub upper: Option<i64>,
}

fn makes_integer(kind: BoundKind) -> bool
    ensures { result ≡ makes_integer kind }
{
    matches!(kind, BoundKind::Ui | BoundKind::Li | BoundKind::Bv)
}

fn sets_lower(kind: BoundKind) -> bool
    ensures { result ≡ sets_lower kind }
{
    matches!(
        kind,
        BoundKind::Lo | BoundKind::Li | BoundKind::Fx | BoundKind::Bv
    )
}

/// What a line of this kind and number does to the lower bound: nothing, or it sets it to a number or to none.
fn lower_set(kind: BoundKind, number: Option<i64>) -> Option<Option<i64>>
    ensures value { result ≡ lower_set kind number }
    ensures small { IsSmallBound number → IfSome result IsSmallBound }
{
    match kind {
        BoundKind::Lo | BoundKind::Li | BoundKind::Fx => Some(number),
        BoundKind::Bv => Some(Some(0)),
        BoundKind::Fr | BoundKind::Mi => Some(None),
        BoundKind::Up | BoundKind::Ui | BoundKind::Pl => None,
    }
}

/// What it does to the upper bound.
fn upper_set(kind: BoundKind, number: Option<i64>) -> Option<Option<i64>>
    ensures value { result ≡ upper_set kind number }
    ensures small { IsSmallBound number → IfSome result IsSmallBound }
{
    match kind {
        BoundKind::Up | BoundKind::Ui | BoundKind::Fx => Some(number),
        BoundKind::Bv => Some(Some(1)),
        BoundKind::Fr | BoundKind::Pl => Some(None),
        BoundKind::Lo | BoundKind::Li | BoundKind::Mi => None,
    }
}

impl Bounds {
    /// The bounds of a column that no line names.
    pub fn none(integer: bool) -> Bounds
        ensures value { result ≡ no_bounds integer }
        ensures small { AreSmall result }
    {
        Bounds {
            integer,
            named: false,
            sets_lower: false,
            lower: Some(0),
            upper: None,
        }
    }

    /// The bounds with a line of this kind and number.
    fn with_line(self, kind: BoundKind, number: Option<i64>) -> Bounds
        ensures value { result ≡ with_bound self kind number }
        ensures small { IsSmallBound number → AreSmall self → AreSmall result }
    {
        Bounds {
            integer: self.integer || makes_integer(kind),
            named: true,
            sets_lower: self.sets_lower || sets_lower(kind),
            lower: lower_set(kind, number).unwrap_or(self.lower),
            upper: upper_set(kind, number).unwrap_or(self.upper),
        }
    }
}

/// The bound of a line's number, where its kind takes one.
fn read_bound(text: Option<&[u8]>) -> Result<Option<i64>, MpsRule>
    ensures value { result ≡ bound_read (option_map (λ number. number.now) text.entry) }
    ensures small { IfOk result IsSmallBound }
{
    match text {
        Some(text) => bound_within(text),
        None => Ok(None),
    }
}

/// Takes up a line of bounds.
#[tactic(auto, unfolding(crate::specs::Bounds::bound_added))]
pub fn add_bound(names: &NameTable, bounds: &mut [Bounds], line: &[u8]) -> Result<(), MpsRule>
    requires { length bounds.old ≡ length names.now }
    ensures count { length bounds.new ≡ length bounds.old }
    ensures small { All AreSmall bounds.old → All AreSmall bounds.new }
    ensures added { Makes result bounds.new (bound_added names.now bounds.old (fields_of line.now)) }
{
    let bound = bound_line(line).ok_or(MpsRule::BadFields)?;
    let place = names.place_of(bound.column).ok_or(MpsRule::UnknownColumn)?;
    let number = read_bound(bound.number)?;
    bounds[place] = bounds[place].with_line(bound.kind, number);
    Ok(())
}
