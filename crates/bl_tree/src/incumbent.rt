//! Incumbents: bilevel feasible points with the entries that show them.
ghost use Rattle.std.specs.Prelude.{◌≡◌, ◌↔◌, IsTrue, OnOk, IfOk, IfErr, option_map, MatchOption};
ghost use Rattle.std.specs.Arc.{arc_value};
ghost use Rattle.std.specs.Option.{option_copied};
ghost use Rattle.bl_terms.specs.Programs.{InBox, MeetsRows, link_of};
ghost use Rattle.bl_leaf_terms.specs.Incumbents.{IsIncumbent, cost_of, cutoff_of};
ghost use Rattle.bl_tree.specs.Shows.{IsShowFailure, IsOwnEntry, IsFirstBroken};
ghost use Rattle.bl_tree.specs.declared.incumbent.ShowFail.TheVariants.{Memory};

use bl_fproof::{Answered, Entry};
use bl_model::{Bilevel, same};
use bl_pool::Kept;
use bl_whole::dot_product;
use std::alloc::{AllocError, Global};
use std::marker::Model;
use std::sync::Arc;

/// A bilevel feasible point of a model with the entry of its link, which shows it.
#[derive(Debug, Drop)]
pub struct Incumbent {
    model: Arc<Bilevel, Global>,
    point: Vec<i64>,
    kept: Kept,
}

impl Model for Incumbent {
    ghost use Rattle.std.specs.Arc.{arc_value};
    ghost use Rattle.bl_leaf_terms.specs.Incumbents.{Incumbent as FeasiblePoint, IsIncumbent};

    ghost Value = { FeasiblePoint };

    ghost view = { λ f. record { program = arc_value f.model; point = f.point.items; entry = f.kept } };

    ghost invariant = { λ f. IsIncumbent
        (record { program = arc_value f.model; point = f.point.items; entry = f.kept }) };
}

impl Incumbent {
    /// The incumbent of these parts.
    pub fn make(model: Arc<Bilevel, Global>, point: Vec<i64>, kept: Kept) -> Incumbent
        requires { IsIncumbent (record { program = arc_value model; point = point.items; entry = kept }) }
        ensures { result ≡ record { program = arc_value model; point = point.items; entry = kept } }
    {
        Incumbent { model, point, kept }
    }

    /// The model.
    pub fn model(&self) -> &Arc<Bilevel, Global>
        ensures value { arc_value result.now ≡ self.now.program }
        ensures incumbent { IsIncumbent self.now }
    {
        &self.model
    }

    /// The point: a number for each column.
    pub fn point(&self) -> &[i64]
        ensures value { result.now ≡ self.now.point }
        ensures incumbent { IsIncumbent self.now }
    {
        &self.point
    }

    /// The entry of the point's link.
    pub fn kept(&self) -> &Kept
        ensures value { result.now ≡ self.now.entry }
        ensures incumbent { IsIncumbent self.now }
    {
        &self.kept
    }

    /// The leader's cost of the point, as it is minimised.
    pub fn value(&self) -> i64
        ensures value { result ≡ cost_of self.now }
        ensures incumbent { IsIncumbent self.now }
    {
        self.model.cost_of(&self.point)
    }
}

/// The cutoff that an incumbent sets, where there is one: its cost.
pub fn cutoff_by(best: Option<&Arc<Incumbent, Global>>) -> Option<i64>
    ensures value { result ≡ cutoff_of (option_map arc_value (option_copied best.entry)) }
    ensures incumbent { MatchOption (option_map arc_value (option_copied best.entry)) (Unit {0}) IsIncumbent }
{
    match best {
        Some(best) => Some(best.value()),
        None => None,
    }
}

/// Why a point isn't shown by an entry.
#[derive(Clone, Copy, Debug, PartialEq, Eq)]
pub enum ShowFail {
    /// The entry is of another model.
    OtherModel,
    OutsideBox,
    /// The entry is of another link than the point's.
    OtherLink,
    /// This row, numbered from 0, is the first that the point breaks.
    BreaksRow { row: u32 },
    /// The point costs the follower so much, and his best response less.
    Dearer { point: i64, best: i64 },
    Memory,
}

impl From<AllocError> for ShowFail {
    ghost from_gives = { λ _ e. e ≡ Memory };

    fn from(_error: AllocError) -> ShowFail {
        ShowFail::Memory
    }
}

/// Makes the incumbent of a point that the entry shows. At a refusal all that was handed in is given up. An entry
/// without a response is refused by a row: a point of its link breaks one of the follower's.
pub fn show(
    alloc: Global,
    model: Arc<Bilevel, Global>,
    point: Vec<i64>,
    kept: Kept,
) -> Result<Incumbent, ShowFail>
    ensures ok { IfOk result
        (λ f. f ≡ record { program = arc_value model; point = point.items; entry = kept }) }
    ensures err { IfErr result (IsShowFailure (arc_value model) point.items kept) }
{
    check_point(alloc, &model, &point, kept.entry())?;
    Ok(Incumbent::make(model, point, kept))
}

/// Whether the entry shows the point, and why not.
fn check_point(alloc: Global, model: &Bilevel, point: &[i64], entry: &Entry) -> Result<(), ShowFail>
    ensures ok { OnOk result
        (IsIncumbent (record { program = model.now; point = point.now; entry = entry.now })) }
    ensures err { IfErr result (IsShowFailure model.now point.now entry.now) }
{
    if !same(entry.model(), model) {
        return Err(ShowFail::OtherModel);
    }
    if !model.in_box(point) {
        return Err(ShowFail::OutsideBox);
    }
    if !is_own_entry(alloc, model, point, entry)? {
        return Err(ShowFail::OtherLink);
    }
    if let Some(row) = first_broken_row(model, point) {
        return Err(ShowFail::BreaksRow { row });
    }
    check_cost(model, point, entry)
}

/// Whether the entry is of the link of a point of the box.
fn is_own_entry(
    alloc: Global,
    model: &Bilevel,
    point: &[i64],
    entry: &Entry,
) -> Result<bool, AllocError>
    requires { InBox model.now point.now }
    ensures { IfOk result (λ b. IsTrue b ↔ (entry.now.link ≡ link_of model.now point.now)) }
{
    let link = model.link_of(alloc, point)?;
    Ok(entry.link() == link.as_slice())
}

/// The first row that a point of the box breaks.
fn first_broken_row(model: &Bilevel, point: &[i64]) -> Option<u32>
    requires { InBox model.now point.now }
    ensures { MatchOption result (MeetsRows model.now point.now) (IsFirstBroken model.now point.now) }
{
    let rows = model.rows();
    for i in 0..rows.len() {
        let row = &rows[i];
        if i128::from(row.right) < dot_product(&row.coef, point) {
            return Some(i as u32);
        }
    }
    None
}

/// Whether a point that meets the rows costs the follower no more than the entry of its link.
fn check_cost(model: &Bilevel, point: &[i64], entry: &Entry) -> Result<(), ShowFail>
    requires own { IsOwnEntry model.now point.now entry.now }
    requires rows { MeetsRows model.now point.now }
    ensures ok { OnOk result
        (IsIncumbent (record { program = model.now; point = point.now; entry = entry.now })) }
    ensures err { IfErr result (IsShowFailure model.now point.now entry.now) }
{
    match entry.answered() {
        Answered::Best { value, .. } => {
            let cost = model.follower_of(point);
            if *value < cost {
                return Err(ShowFail::Dearer {
                    point: cost,
                    best: *value,
                });
            }
            Ok(())
        }
        Answered::NoResponse { .. } => unreachable!(),
    }
}
