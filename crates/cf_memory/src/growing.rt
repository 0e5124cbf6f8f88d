//! A sink that grows.
ghost use Rattle.std.specs.Prelude.{◌≡◌, ◌<◌, ◌^◌, nat_lt};

use cf_io::{Failed, Sink};
use std::alloc::Global;

/// A sink that holds all it took. It takes every piece whole, and fails only where memory runs out.
#[derive(Drop)]
pub struct Growing {
    bytes: Vec<u8>,
    faults: u64,
    ghost counted: { faults < 2 ^ 64 },
}

impl Growing {
    ghost use Rattle.std.specs.Prelude.{Some};
    ghost use Rattle.cf_memory.specs.Held.{growing_seen, fresh_sink};

    /// A sink that took nothing yet.
    pub fn new(alloc: Global) -> Growing
        ensures { growing_seen result ≡ fresh_sink }
    {
        Growing {
            bytes: Vec::new(alloc),
            faults: 0,
        }
    }

    /// The bytes that it holds.
    pub fn held(&self) -> &[u8]
        ensures { (growing_seen self.now).held ≡ Some result.now }
    {
        &self.bytes
    }

    /// Whether memory ran out.
    pub fn has_failed(&self) -> bool
        ensures { result ≡ nat_lt 0 (growing_seen self.now).faults }
    {
        self.faults > 0
    }
}

impl Sink for Growing {
    ghost use Rattle.std.specs.Prelude.{◌≤◌, Some, length, is_some, IfOk, OnOk, OnErr};
    ghost use Rattle.std.specs.Io.{WritesAtMost};
    ghost use Rattle.std.specs.Io.KnownBytes.{WriteAppends};
    ghost use Rattle.cf_io.specs.Causes.{Rose, ChangesNothing, one_more};
    ghost use Rattle.cf_memory.specs.Held.{growing_seen};

    ghost seen = { λ s. growing_seen s };

    fn write(&mut self, from: &[u8]) -> Result<usize, Failed>
        ensures bound { WritesAtMost result from.now }
        ensures bytes { WriteAppends (growing_seen self.old).held (growing_seen self.new).held result from.now }
        ensures told { is_some (growing_seen self.new).held ≡ is_some (growing_seen self.old).held }
        ensures nothing { ChangesNothing from.now result self.old self.new }
        ensures some { IfOk result (λ count. 0 < length from.now → 0 < count) }
        ensures failed { OnErr result (Rose (growing_seen self.old).faults (growing_seen self.new).faults) }
        ensures counts { (growing_seen self.old).faults ≤ (growing_seen self.new).faults }
        ensures last { (growing_seen self.new).faults < 2 ^ 64 }
        ensures same { OnOk result ((growing_seen self.new).faults ≡ (growing_seen self.old).faults) }
        ensures once { (growing_seen self.new).faults ≤ one_more (growing_seen self.old).faults }
        // It takes a piece whole.
        ensures whole { IfOk result (λ count. count ≡ length from.now) }
    {
        if from.is_empty() {
            return Ok(0);
        }
        match self.bytes.extend_from_slice(from) {
            Ok(()) => Ok(from.len()),
            Err(_) => {
                self.faults = self.faults.saturating_add(1);
                Err(Failed)
            }
        }
    }

    fn has_lost_reader(&self) -> bool {
        false
    }
}
