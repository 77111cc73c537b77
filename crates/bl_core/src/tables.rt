//! The tables of a book: rows of nodes that name steps by their places in the journal.
ghost use Rattle.std.specs.Prelude.{◌≡◌, ◌+◌, ◌<◌, ◌≤◌, ◌^◌, [], ◌∷◌, ◌++◌, length, map, None, option_map, MatchOption};
ghost use Rattle.std.specs.Prelude.{ℕ, suc, slice_get};
ghost use Rattle.std.specs.Arc.{arc_value};
ghost use Rattle.std.specs.Option.{option_copied};
ghost use Rattle.std.specs.Vec.{vec_capacity};
ghost use Rattle.bl_leaf_terms.specs.Incumbents.{cutoff_of};
ghost use Rattle.bl_book_terms.specs.Books.{improved_by, Closed};
ghost use Rattle.bl_core.specs.Tables.{told_status, HasNext, IsUndivided, IsDivided, IsUnclosedRow};
ghost use Rattle.bl_core.specs.Events.{brought};
ghost use Rattle.bl_core.specs.Tables.{read_at, split_in, leaf_in, told_area, told_cuts, told_best, row_at, with_row};
ghost use Rattle.bl_core.specs.Tables.{rows_after, live_after, Closes, IsOfRow, IsNextBest, IsReadyRow, IsFirstReady};
ghost use Rattle.bl_core.specs.declared.node.Status.TheVariants as status;
ghost use Rattle.bl_core.specs.declared.node.Origin.TheVariants as origin;

use crate::event::{Event, cuts_of, halves_of, incumbent_of, leaf_of};
use crate::node::{Node, Origin, Status};
use bl_cut::Cuts;
use bl_model::{Box2, Halves};
use bl_tree::{Incumbent, ProvedLeaf};
use std::alloc::Global;
use std::sync::Arc;

// ---- steps at places of the journal

/// The halves of the split at a place.
pub(crate) fn halves_at(journal: &[Event], place: u32) -> Option<&Halves>
    ensures { option_copied result ≡ option_map (λ s. s.halves) (read_at split_in journal.now place) }
{
    match journal.get(place as usize) {
        Some(event) => halves_of(event),
        None => None,
    }
}

/// The cuts of the split at a place.
pub(crate) fn cuts_at(journal: &[Event], place: u32) -> Option<&Cuts>
    ensures { option_copied result ≡ option_map (λ s. s.cuts) (read_at split_in journal.now place) }
{
    match journal.get(place as usize) {
        Some(event) => cuts_of(event),
        None => None,
    }
}

/// The leaf that a node was closed with at a place.
pub(crate) fn leaf_at(journal: &[Event], place: u32) -> Option<&ProvedLeaf>
    ensures { option_copied result ≡ read_at leaf_in journal.now place }
{
    match journal.get(place as usize) {
        Some(event) => leaf_of(event),
        None => None,
    }
}

/// The best incumbent, by the place of the step that brought it.
pub(crate) fn best_at(journal: &[Event], best: Option<u32>) -> Option<&Arc<Incumbent, Global>>
    ensures { option_map arc_value (option_copied result) ≡ told_best journal.now best }
{
    let Some(place) = best else {
        return None;
    };
    match journal.get(place as usize) {
        Some(event) => incumbent_of(event),
        None => None,
    }
}

// ---- rows

/// The row of a node, none past the last.
pub(crate) fn row_of(rows: &[Node], node: u32) -> Option<Node>
    ensures { result ≡ slice_get rows.now node }
{
    match rows.get(node as usize) {
        Some(row) => Some(*row),
        None => None,
    }
}

/// The halves of a node of this status, and their numbers.
pub(crate) fn split_at(journal: &[Event], status: Status) -> Option<(&Halves, u32, u32)>
    requires { HasNext status }
    ensures { MatchOption result (IsUndivided journal.now status)
        (λ s. IsDivided journal.now status s.0.now s.1 × (s.2 ≡ suc s.1)) }
{
    match status {
        Status::Ready => None,
        Status::Claimed { .. } => None,
        Status::Split { event, low } => match halves_at(journal, event) {
            Some(halves) => Some((halves, low, low + 1)),
            None => None,
        },
        Status::Closed { .. } => None,
    }
}

/// The leaf of a node of this status.
pub(crate) fn closed_at(journal: &[Event], status: Status) -> Option<&ProvedLeaf>
    ensures { MatchOption result (IsUnclosedRow journal.now status)
        (λ l. told_status journal.now status ≡ Some (Closed l.now)) }
{
    match status {
        Status::Ready => None,
        Status::Claimed { .. } => None,
        Status::Split { .. } => None,
        Status::Closed { event } => leaf_at(journal, event),
    }
}

// ---- where nodes come from

/// The box of a node.
pub(crate) fn area_of<'a>(
    root: &'a Arc<Box2, Global>,
    journal: &'a [Event],
    origin: Origin,
) -> Option<&'a Arc<Box2, Global>>
    ensures { option_map arc_value (option_copied result)
        ≡ told_area (arc_value root.now) journal.now origin }
{
    match origin {
        Origin::Root => Some(root),
        Origin::Low { split } => match halves_at(journal, split) {
            Some(halves) => Some(halves.low()),
            None => None,
        },
        Origin::High { split } => match halves_at(journal, split) {
            Some(halves) => Some(halves.high()),
            None => None,
        },
    }
}

/// The cuts of a node.
pub(crate) fn cuts_of_node<'a>(
    no_cuts: &'a Cuts,
    journal: &'a [Event],
    origin: Origin,
) -> Option<&'a Cuts>
    requires { no_cuts.now ≡ [] }
    ensures { option_copied result ≡ told_cuts journal.now origin }
{
    match origin {
        Origin::Root => Some(no_cuts),
        Origin::Low { split } => cuts_at(journal, split),
        Origin::High { split } => cuts_at(journal, split),
    }
}

// ---- steps in the tables

/// Another status of a node.
pub(crate) fn set_status(rows: &mut [Node], node: u32, status: Status)
    requires { node < length rows.old }
    ensures { rows.new ≡ with_row rows.old node status }
{
    let node = node as usize;
    let origin = rows[node].origin;
    rows[node] = Node { origin, status };
}

/// A further row, for which there is room.
fn add_row(rows: &mut Vec<Node>, row: Node)
    requires { length rows.old.items < vec_capacity rows.old }
    ensures items { rows.new.items ≡ rows.old.items ++ row ∷ [] }
    ensures capacity { vec_capacity rows.old ≤ vec_capacity rows.new }
{
    if rows.push(row).is_err() {
        unreachable!();
    }
}

/// A further step, for which there is room.
pub(crate) fn add_event(journal: &mut Vec<Event>, event: Event)
    requires { length journal.old.items < vec_capacity journal.old }
    ensures items { journal.new.items ≡ journal.old.items ++ event ∷ [] }
    ensures capacity { vec_capacity journal.old ≤ vec_capacity journal.new }
{
    if journal.push(event).is_err() {
        unreachable!();
    }
}

/// The rows of both halves of a split at a place.
fn add_halves(rows: &mut Vec<Node>, split: u32)
    requires { length rows.old.items + 2 ≤ vec_capacity rows.old }
    ensures items { rows.new.items ≡ rows.old.items
        ++ record { origin = origin.Low split; status = status.Ready }
        ∷ record { origin = origin.High split; status = status.Ready } ∷ [] }
    ensures capacity { vec_capacity rows.old ≤ vec_capacity rows.new }
{
    let status = Status::Ready;
    let origin = Origin::Low { split };
    add_row(rows, Node { origin, status });
    let origin = Origin::High { split };
    add_row(rows, Node { origin, status });
}

/// The rows after a step at a place of the journal. `best` is the best value before it.
pub(crate) fn write_rows(rows: &mut Vec<Node>, event: &Event, place: u32, best: Option<i64>)
    requires row { IsOfRow (length rows.old.items) event.now }
    requires room { length rows.old.items + 2 ≤ vec_capacity rows.old }
    requires few { length rows.old.items < 2 ^ 32 }
    ensures items { rows.new.items ≡ rows_after best place rows.old.items event.now }
    ensures capacity { vec_capacity rows.old ≤ vec_capacity rows.new }
{
    match event {
        Event::Claim { worker, node } => {
            let worker = *worker;
            set_status(rows, *node, Status::Claimed { worker, best });
        }
        Event::Back { node, .. } => set_status(rows, *node, Status::Ready),
        Event::Split { node, .. } => {
            let low = rows.len() as u32;
            set_status(rows, *node, Status::Split { event: place, low });
            add_halves(rows, place);
        }
        Event::Close { node, .. } => set_status(rows, *node, Status::Closed { event: place }),
        Event::Offer { .. } => {}
    }
}

/// How many nodes are live after a step.
pub(crate) fn count_live(live: u32, event: &Event) -> u32
    requires few { live + 1 < 2 ^ 32 }
    requires some { Closes event.now → 1 ≤ live }
    ensures { result ≡ live_after live event.now }
{
    match event {
        Event::Split { .. } => live + 1,
        Event::Close { .. } => live - 1,
        Event::Claim { .. } => live,
        Event::Back { .. } => live,
        Event::Offer { .. } => live,
    }
}

/// The place of the best incumbent after a step that is next in the journal.
pub(crate) fn next_best(journal: &[Event], best: Option<u32>, event: &Event) -> Option<u32>
    requires { length journal.now < 2 ^ 32 }
    ensures { IsNextBest journal.now best event.now result }
{
    let place = journal.len() as u32;
    let Some(further) = incumbent_of(event) else {
        return best;
    };
    match best_at(journal, best) {
        Some(old) => {
            if further.value() < old.value() {
                Some(place)
            } else {
                best
            }
        }
        None => Some(place),
    }
}

/// The first ready row from a number on.
pub(crate) fn first_ready(rows: &[Node], from: u32) -> Option<u32>
    requires { length rows.now < 2 ^ 32 }
    ensures { MatchOption result
        ((k : ℕ) → from ≤ k → ¬ IsReadyRow rows.now k) (IsFirstReady rows.now from) }
{
    for node in from as usize..rows.len() {
        if matches!(rows[node].status, Status::Ready) {
            return Some(node as u32);
        }
    }
    None
}
