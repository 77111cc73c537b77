//! Steps that workers enter.
ghost use Rattle.std.specs.Prelude.{◌≡◌, option_map};
ghost use Rattle.std.specs.Arc.{arc_value};
ghost use Rattle.std.specs.Option.{option_copied};
ghost use Rattle.bl_core.specs.Events.{brought};
ghost use Rattle.bl_core.specs.Tables.{split_in, leaf_in};

use bl_cut::Cuts;
use bl_model::Halves;
use bl_tree::{Incumbent, ProvedLeaf, ProvedWhy};
use std::alloc::Global;
use std::sync::Arc;

/// A step of a worker.
#[derive(Debug, Drop)]
pub enum Event {
    /// Takes a node, to work on it.
    Claim {
        worker: u32,
        node: u32,
    },
    /// Gives a node back.
    Back {
        worker: u32,
        node: u32,
    },
    /// Splits a node into two, which have these cuts.
    Split {
        worker: u32,
        node: u32,
        halves: Halves,
        why: ProvedWhy,
        cuts: Cuts,
    },
    /// Closes a node.
    Close {
        worker: u32,
        node: u32,
        leaf: ProvedLeaf,
    },
    /// Hands in an incumbent.
    Offer {
        worker: u32,
        incumbent: Arc<Incumbent, Global>,
    },
}

/// The incumbent that a step brings: one that is handed in, or one that set a cutoff.
pub(crate) fn incumbent_of(event: &Event) -> Option<&Arc<Incumbent, Global>>
    ensures { option_map arc_value (option_copied result) ≡ brought event.now }
{
    match event {
        Event::Claim { .. } => None,
        Event::Back { .. } => None,
        Event::Split { why, .. } => why.cutoff(),
        Event::Close { leaf, .. } => leaf.cutoff(),
        Event::Offer { incumbent, .. } => Some(incumbent),
    }
}

/// The halves of a split.
pub(crate) fn halves_of(event: &Event) -> Option<&Halves>
    ensures { option_copied result ≡ option_map (λ s. s.halves) (split_in event.now) }
{
    match event {
        Event::Claim { .. } => None,
        Event::Back { .. } => None,
        Event::Split { halves, .. } => Some(halves),
        Event::Close { .. } => None,
        Event::Offer { .. } => None,
    }
}

/// The cuts of a split.
pub(crate) fn cuts_of(event: &Event) -> Option<&Cuts>
    ensures { option_copied result ≡ option_map (λ s. s.cuts) (split_in event.now) }
{
    match event {
        Event::Claim { .. } => None,
        Event::Back { .. } => None,
        Event::Split { cuts, .. } => Some(cuts),
        Event::Close { .. } => None,
        Event::Offer { .. } => None,
    }
}

/// The leaf that closes a node.
pub(crate) fn leaf_of(event: &Event) -> Option<&ProvedLeaf>
    ensures { option_copied result ≡ leaf_in event.now }
{
    match event {
        Event::Claim { .. } => None,
        Event::Back { .. } => None,
        Event::Split { .. } => None,
        Event::Close { leaf, .. } => Some(leaf),
        Event::Offer { .. } => None,
    }
}
