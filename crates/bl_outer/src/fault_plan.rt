//! Which calls of a shelf or a sink in memory are to fail.

ghost use Rattle.std.specs.Prelude.{◌≡◌, ◌++◌, false, IfOk};
ghost use Rattle.std.specs.Bool.{OnTrue, OnFalse};
ghost use Rattle.bl_outer.specs.FaultPlan.{is_to_fail, after_call, new_plan};
ghost use Rattle.bl_outer.specs.Sink.{Adds, AddsPrefix};

use crate::count::saturating_increment;
use std::alloc::{AllocError, Global};
use std::marker::Model;

/// Counts calls, and knows by their numbers which are to fail.
#[derive(Drop)]
pub(crate) struct FaultPlan {
    fails: Vec<u64>,
    calls: u64,
}

impl Model for FaultPlan {
    ghost use Rattle.bl_outer.specs.FaultPlan.{Plan};

    ghost Value = { Plan };

    ghost view = { λ a. record { fails = a.fails.items; calls = a.calls } };
}

impl FaultPlan {
    /// Counts from 1.
    pub(crate) fn new(alloc: Global, fails: &[u64]) -> Result<FaultPlan, AllocError>
        ensures { IfOk result (λ plan. plan ≡ new_plan fails.now) }
    {
        Ok(FaultPlan {
            fails: Vec::from_slice(alloc, fails)?,
            calls: 0,
        })
    }

    /// Counts a call, and says whether it is to fail.
    pub(crate) fn count(&mut self) -> bool
        ensures planned { result ≡ is_to_fail self.old }
        ensures counted { self.new ≡ after_call self.old }
    {
        self.calls = saturating_increment(self.calls);
        self.fails.contains(&self.calls)
    }
}

/// Adds the piece, or its first half where the call is to fail, and says whether the whole piece was added.
pub(crate) fn add_piece(into: &mut Vec<u8>, piece: &[u8], fails: bool) -> bool
    ensures whole { OnTrue result (Adds piece.now into.old.items into.new.items) }
    ensures part { OnFalse result (AddsPrefix piece.now into.old.items into.new.items) }
    ensures planned { OnTrue result (fails ≡ false) }
{
    let part = if fails {
        &piece[..piece.len() / 2]
    } else {
        piece
    };
    let added = into.extend_from_slice(part);
    !fails && added.is_ok()
}
