//! An output in memory.

ghost use Rattle.std.specs.Prelude.{◌≡◌, IfOk};
ghost use Rattle.bl_outer.specs.MemSink.{empty_sink};

use crate::count::saturating_increment;
use crate::fault_plan::{FaultPlan, add_piece};
use crate::sink::{Sink, SinkFail};
use std::alloc::{AllocError, Global};
use std::marker::Model;

/// An output in memory, which tells its bytes. The calls of `put` that are to fail are told by number,
/// and add the first half of their piece. A growth that finds no memory is a fault too.
#[derive(Drop)]
pub struct MemSink {
    written: Vec<u8>,
    plan: FaultPlan,
    faults: u64,
}

impl Model for MemSink {
    ghost use Rattle.bl_outer.specs.MemSink.{MemSinkState};

    ghost Value = { MemSinkState };

    ghost view = { λ a. record { bytes = a.written.items; faults = a.faults; plan = a.plan } };
}

impl MemSink {
    /// An empty output. The numbers in `fails` count the calls of `put` from 1.
    pub fn new(alloc: Global, fails: &[u64]) -> Result<MemSink, AllocError>
        ensures { IfOk result (λ sink. sink ≡ empty_sink fails.now) }
    {
        Ok(MemSink {
            written: Vec::new(alloc),
            plan: FaultPlan::new(alloc, fails)?,
            faults: 0,
        })
    }

    /// What was put so far.
    pub fn bytes(&self) -> &[u8]
        ensures { result.now ≡ self.now.bytes }
    {
        &self.written
    }
}

impl Sink for MemSink {
    ghost use Rattle.std.specs.Prelude.{IsTrue, IsErr, OnOk, OnErr};
    ghost use Rattle.bl_outer.specs.Count.{HasCause};
    ghost use Rattle.bl_outer.specs.FaultPlan.{is_to_fail, after_call};
    ghost use Rattle.bl_outer.specs.MemSink.{sink_state};
    ghost use Rattle.bl_outer.specs.Sink.{Adds, AddsPrefix};

    ghost state = { sink_state };

    fn put(&mut self, piece: &[u8]) -> Result<(), SinkFail>
        ensures ok { OnOk result (Adds piece.now self.old.bytes self.new.bytes) }
        ensures err { OnErr result (AddsPrefix piece.now self.old.bytes self.new.bytes) }
        ensures fault { HasCause self.old.faults self.new.faults result }

        ensures planned { IsTrue (is_to_fail self.old.plan) → IsErr result }
        ensures calls { self.new.plan ≡ after_call self.old.plan }
    {
        let fails = self.plan.count();
        if add_piece(&mut self.written, piece, fails) {
            return Ok(());
        }
        self.faults = saturating_increment(self.faults);
        Err(SinkFail)
    }
}
