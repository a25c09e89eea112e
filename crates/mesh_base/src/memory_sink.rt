ghost use Rattle.std.specs.Prelude.{◌≡◌, ◌<◌, ◌≤◌, ◌↔◌, ◌⊎◌, [], length, IfOk, OnOk, OnErr, IsErr, is_err, vec_capacity};
ghost use Rattle.std.specs.Io.{WritesAtMost};
ghost use Rattle.std.specs.Io.KnownBytes.{WriteAppends};
ghost use Rattle.mesh_base.specs.Faults.{Rose};

use crate::call_plan::CallPlan;
use crate::failure::{Failed, NoMemory};
use crate::fault_count::FaultCount;
use crate::outside::Sink;
use std::alloc::Global;

/// An output in memory, with room for so many bytes and no more.
#[derive(Debug, Drop)]
pub struct MemSink {
    bytes: Vec<u8>,
    room: usize,
    plan: CallPlan,
    faults: FaultCount,
    pub ghost within: { length bytes.items ≤ room },
    pub ghost made: { room ≤ vec_capacity bytes },
    pub ghost calm: { plan.fails.items ≡ [] → length bytes.items < room → faults.0 ≡ 0 },
}

impl MemSink {
    ghost use Rattle.mesh_base.specs.Inner.CallPlan.{IsFreshPlan};
    ghost use Rattle.mesh_base.specs.Inner.Memory.{sink_plan, whole_room};

    /// An output with `room` for bytes, which takes at most `piece` of them at a write and fails at
    /// the writes of these numbers, from 1. A write of some bytes is a fault too where no room is
    /// left.
    pub fn new(alloc: Global, room: usize, piece: usize, fails: &[u64]) -> Result<MemSink, NoMemory>
        requires { 0 < piece }
        ensures taken { IfOk result (λ sink. ⟦<MemSink as Sink>⟧.taken sink ≡ Some []) }
        ensures faults { IfOk result (λ sink. ⟦<MemSink as Sink>⟧.faults sink ≡ 0) }
        ensures room { IfOk result (λ sink. whole_room sink ≡ room) }
        ensures plan { IfOk result (λ sink. IsFreshPlan piece fails.now (sink_plan sink)) }
    {
        let bytes = Vec::with_capacity(alloc, room)?;
        let plan = CallPlan::new(alloc, piece, fails)?;
        Ok(MemSink {
            bytes,
            room,
            plan,
            faults: FaultCount(0),
        })
    }

    /// The bytes that it took.
    pub fn taken(&self) -> &[u8]
        ensures value { ⟦<MemSink as Sink>⟧.taken self.now ≡ Some result.now }
    {
        self.bytes.as_slice()
    }

    /// The count of faults.
    pub fn faults(&self) -> u64
        ensures value { result ≡ ⟦<MemSink as Sink>⟧.faults self.now }
    {
        self.faults.0
    }
}

impl Sink for MemSink {
    ghost use Rattle.mesh_base.specs.Inner.CallPlan.{IsFailing};
    ghost use Rattle.mesh_base.specs.Inner.Memory.{known_taken, sink_faults, sink_plan, taken_count, CallsOutput, IsFullFor};

    ghost taken = { known_taken };

    ghost faults = { sink_faults };

    fn write(&mut self, buf: &[u8]) -> Result<usize, Failed>
        ensures bound { WritesAtMost result buf.now }
        ensures bytes { WriteAppends (known_taken self.old) (known_taken self.new) result buf.now }
        ensures some { IfOk result (λ n. 0 < length buf.now → 0 < n) }
        ensures cause { OnErr result (Rose (sink_faults self.old) (sink_faults self.new)) }
        ensures count { sink_faults self.old ≤ sink_faults self.new }

        // Exactly the planned calls fail, and those for which no room is left. A fault counts one
        // more, and nothing else does.
        ensures fails { IsErr result ↔
            (IsFailing (sink_plan self.new) ⊎ IsFullFor self.old buf.now) }
        ensures given { IfOk result (λ count. count ≡ taken_count self.old (length buf.now)) }
        ensures call { CallsOutput (is_err result) self.old self.new }
    {
        let room = self.room - self.bytes.len();
        if self.plan.next_fails() || (room == 0 && !buf.is_empty()) {
            return Err(self.faults.raise());
        }
        let count = self.plan.piece.min(room.min(buf.len()));
        self.bytes.extend_from_slice(&buf[..count]).unwrap();
        Ok(count)
    }
}
