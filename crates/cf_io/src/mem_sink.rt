//! A sink in memory.
ghost use Rattle.std.specs.Prelude.{◌<◌, ◌^◌, ◌≡◌, ◌≤◌, ◌+◌, [], vec_len, vec_capacity, IfOk};

use crate::fails::is_listed;
use crate::faults::Failed;
use crate::traits::Sink;
use cf_tree::NoMemory;
use std::alloc::Global;

/// A sink with room for some bytes, which fails at the listed calls and where no room is left.
///
/// It counts its calls from 0, but for those on an empty slice, and its faults.
#[derive(Drop)]
pub struct MemSink {
    bytes: Vec<u8>,
    room: usize,
    fails: Vec<u64>,
    calls: u64,
    faults: u64,
    ghost counted: { faults < 2 ^ 64 },
    ghost within: { vec_len bytes + room ≤ vec_capacity bytes },
}

impl MemSink {
    ghost use Rattle.cf_io.specs.Memory.{sink_of};

    /// A sink with room for `room` bytes. The calls whose numbers are in `fails` are to fail.
    pub fn new(alloc: Global, room: usize, fails: Vec<u64>) -> Result<MemSink, NoMemory>
        ensures { IfOk result (λ s. sink_of s ≡ record { held = []; room = room; fails = fails.items; calls = 0; faults = 0 }) }
    {
        let bytes = Vec::with_capacity(alloc, room)?;
        Ok(MemSink {
            bytes,
            room,
            fails,
            calls: 0,
            faults: 0,
        })
    }

    /// The bytes that it holds.
    pub fn held(&self) -> &[u8]
        ensures { result.now ≡ (sink_of self.now).held }
    {
        &self.bytes
    }
}

impl Sink for MemSink {
    ghost use Rattle.std.specs.Prelude.{◌↔◌, ◌⊎◌, Some, length, min, is_some, OnOk, OnErr, IsErr, Contains};
    ghost use Rattle.std.specs.Io.{WritesAtMost};
    ghost use Rattle.std.specs.Io.KnownBytes.{WriteAppends};
    ghost use Rattle.cf_io.specs.Causes.{Rose, ChangesNothing, one_more};
    ghost use Rattle.cf_io.specs.Memory.{sink_of, sink_seen, sink_failed, sink_took};

    ghost seen = { λ s. sink_seen s };

    fn write(&mut self, from: &[u8]) -> Result<usize, Failed>
        ensures bound { WritesAtMost result from.now }
        ensures bytes { WriteAppends (sink_seen self.old).held (sink_seen self.new).held result from.now }
        ensures told { is_some (sink_seen self.new).held ≡ is_some (sink_seen self.old).held }
        ensures nothing { ChangesNothing from.now result self.old self.new }
        ensures some { IfOk result (λ count. 0 < length from.now → 0 < count) }
        ensures failed { OnErr result (Rose (sink_seen self.old).faults (sink_seen self.new).faults) }
        ensures counts { (sink_seen self.old).faults ≤ (sink_seen self.new).faults }
        ensures last { (sink_seen self.new).faults < 2 ^ 64 }
        ensures same { OnOk result ((sink_seen self.new).faults ≡ (sink_seen self.old).faults) }
        ensures once { (sink_seen self.new).faults ≤ one_more (sink_seen self.old).faults }
        // It fails exactly where the call is listed or no room is left.
        ensures listed { 0 < length from.now → (IsErr result ↔ (Contains (sink_of self.old).fails (sink_of self.old).calls ⊎ ((sink_of self.old).room ≡ 0))) }
        ensures refused { OnErr result (sink_of self.new ≡ sink_failed (sink_of self.old)) }
        // It takes as many first bytes as there is room for.
        ensures full { IfOk result (λ count. count ≡ min (length from.now) (sink_of self.old).room) }
        ensures took { IfOk result (λ count. 0 < length from.now → sink_of self.new ≡ sink_took (sink_of self.old) from.now count) }
    {
        if from.is_empty() {
            return Ok(0);
        }
        let number = self.calls;
        self.calls = self.calls.saturating_add(1);
        if is_listed(&self.fails, number) {
            self.faults = self.faults.saturating_add(1);
            return Err(Failed);
        }
        if self.room == 0 {
            self.faults = self.faults.saturating_add(1);
            return Err(Failed);
        }
        let count = from.len().min(self.room);
        self.bytes.extend_from_slice(&from[..count]).unwrap();
        self.room -= count;
        Ok(count)
    }

    fn has_lost_reader(&self) -> bool {
        false
    }
}
