//! Sinks in memory.
ghost use Rattle.std.specs.Prelude.{◌≡◌, Some, IfOk, IsErr, IsTrue, ◌↔◌};
ghost use Rattle.outside.specs.Calls.{PutsBytes};
ghost use Rattle.memory_devices.specs.Memory.{fresh_sink, refuses, after_put, sink_told};

use crate::memory_calls::MemoryCalls;
use outside::{NoMemory, Seq, Sink, SinkFault};
use std::alloc::Global;
use std::marker::Model;

/// A sink in memory, which tells everything. It fails at the calls whose numbers it is given,
/// counted from 0, and where its room does not hold a piece; then it has written nothing of the
/// piece.
#[derive(Drop)]
pub struct MemorySink {
    bytes: Vec<u8>,
    room: usize,
    calls: MemoryCalls,
    faults: u64,
}

impl Model for MemorySink {
    ghost use Rattle.std.specs.Prelude.{◌≤◌, vec_len, vec_capacity};
    ghost use Rattle.memory_devices.specs.Memory.{SinkMemory};

    ghost Value = { SinkMemory };

    ghost view = { λ s. record {
      written = s.bytes.items;
      room = s.room;
      failing = s.calls.failing;
      calls = s.calls.made;
      faults = s.faults;
    } };

    ghost invariant = { λ s. (vec_len s.bytes ≤ s.room) × (s.room ≤ vec_capacity s.bytes) };
}

impl MemorySink {
    /// A sink for `room` bytes, whose memory it takes at once.
    pub fn with_room(alloc: Global, room: usize, failing: Seq<u64>) -> Result<Self, NoMemory>
        ensures { IfOk result (λ sink. sink ≡ fresh_sink room failing) }
    {
        Ok(MemorySink {
            bytes: Vec::with_capacity(alloc, room)?,
            room,
            calls: MemoryCalls::new(failing),
            faults: 0,
        })
    }

    /// All that was written.
    pub fn bytes(&self) -> &[u8]
        ensures { result.now ≡ self.now.written }
    {
        self.bytes.as_slice()
    }
}

impl Sink for MemorySink {
    ghost written = { λ sink. Some sink.written };

    ghost faults = { λ sink. sink.faults };

    fn put(&mut self, bytes: &[u8]) -> Result<(), SinkFault>
        ensures after { self.new ≡ after_put bytes.now self.old }
        ensures refused { IsErr result ↔ IsTrue (refuses bytes.now self.old) }
        ensures puts { PutsBytes bytes.now result (sink_told self.old) (sink_told self.new) }
    {
        let fails = self.calls.fails();
        if fails || self.room - self.bytes.len() < bytes.len() {
            self.faults = self.faults.saturating_add(1);
            return Err(SinkFault::Failed);
        }
        self.bytes.extend_from_slice(bytes).unwrap();
        Ok(())
    }
}
