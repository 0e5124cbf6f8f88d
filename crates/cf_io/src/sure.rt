//! Objects that never fail.
ghost use Rattle.std.specs.Prelude.{◌≡◌, ◌<◌, ◌≤◌, ◌^◌, [], vec_len};

use crate::faults::{Failed, FetchFault};
use crate::front::copy_from;
use crate::reads::Reads;
use crate::traits::{Shelf, Sink, Source};
use cf_tree::Bytes;
use std::alloc::Global;

/// A shelf whose one text stands under every name. It never fails.
#[derive(Drop)]
pub struct SureShelf {
    text: Vec<u8>,
    at: usize,
    fetches: u64,
    reads: Reads,
    ghost within: { at ≤ vec_len text },
}

impl SureShelf {
    ghost use Rattle.cf_io.specs.Sure.{shelf_seen, sure_text, sure_left, sure_fetches};

    /// A shelf of this text. Before the first fetch nothing is left.
    pub fn new(text: Bytes) -> SureShelf
        ensures text { sure_text result ≡ text }
        ensures left { sure_left result ≡ [] }
        ensures fetches { sure_fetches result ≡ 0 }
        ensures given { (shelf_seen result).given ≡ 0 }
        ensures ends { (shelf_seen result).ends ≡ 0 }
    {
        let at = text.bytes.len();
        SureShelf {
            text: text.bytes,
            at,
            fetches: 0,
            reads: Reads::new(),
        }
    }
}

impl Shelf for SureShelf {
    ghost use Rattle.std.specs.Prelude.{◌↔◌, ℕ, List, Some, length, drop, min, is_some, IsOk, IfOk, OnOk, OnErr, IsErrOf};
    ghost use Rattle.std.specs.Io.{ReadsAtMost};
    ghost use Rattle.std.specs.Io.KnownBytes.{ReadConsumes};
    ghost use Rattle.cf_io.specs.Causes.{Rose, ChangesNothing, counted, one_more};
    ghost use Rattle.cf_io.specs.Sure.{shelf_seen, sure_text, sure_left, sure_fetches};

    ghost seen = { λ s. shelf_seen s };

    ghost turned = { λ s name. Unit {0} };

    fn fetch(&mut self, alloc: Global, name: &str) -> Result<(), FetchFault>
        ensures start { OnOk result ((shelf_seen self.new).left ≡ (shelf_seen self.old).texts name.now) }
        ensures turned { OnOk result (Unit {0}) }
        ensures told { is_some (shelf_seen self.new).left ≡ is_some (shelf_seen self.old).left }
        ensures kept { OnErr result ((shelf_seen self.new).left ≡ (shelf_seen self.old).left) }
        ensures stays { OnErr result ((other : List ℕ) → Unit {0} ↔ Unit {0}) }
        ensures failed { IsErrOf result FetchFault.Failed → Rose ((shelf_seen self.old).faults name.now) ((shelf_seen self.new).faults name.now) }
        ensures texts { (other : List ℕ) → (shelf_seen self.new).texts other ≡ (shelf_seen self.old).texts other }
        ensures counts { (other : List ℕ) → (shelf_seen self.old).faults other ≤ (shelf_seen self.new).faults other }
        ensures last { (other : List ℕ) → (shelf_seen self.new).faults other < 2 ^ 64 }
        ensures same { ¬ IsErrOf result FetchFault.Failed → (other : List ℕ) → (shelf_seen self.new).faults other ≡ (shelf_seen self.old).faults other }
        ensures once { (other : List ℕ) → (shelf_seen self.new).faults other ≤ one_more ((shelf_seen self.old).faults other) }
        ensures asked { (shelf_seen self.new).fetches ≡ one_more (shelf_seen self.old).fetches }
        ensures given { (shelf_seen self.new).given ≡ (shelf_seen self.old).given }
        ensures ends { (shelf_seen self.new).ends ≡ (shelf_seen self.old).ends }
        ensures sure { IsOk result }
    {
        self.at = 0;
        self.fetches = self.fetches.saturating_add(1);
        Ok(())
    }

    fn read(&mut self, into: &mut [u8]) -> Result<usize, Failed>
        ensures bound { ReadsAtMost result into.new }
        ensures bytes { ReadConsumes (shelf_seen self.old).left (shelf_seen self.new).left result into.new }
        ensures told { is_some (shelf_seen self.new).left ≡ is_some (shelf_seen self.old).left }
        ensures nothing { ChangesNothing into.old result self.old self.new }
        ensures failed { OnErr result ((name : List ℕ) → Unit {0} → Rose ((shelf_seen self.old).faults name) ((shelf_seen self.new).faults name)) }
        ensures turned { (name : List ℕ) → Unit {0} ↔ Unit {0} }
        ensures texts { (other : List ℕ) → (shelf_seen self.new).texts other ≡ (shelf_seen self.old).texts other }
        ensures counts { (other : List ℕ) → (shelf_seen self.old).faults other ≤ (shelf_seen self.new).faults other }
        ensures last { (other : List ℕ) → (shelf_seen self.new).faults other < 2 ^ 64 }
        ensures same { OnOk result ((other : List ℕ) → (shelf_seen self.new).faults other ≡ (shelf_seen self.old).faults other) }
        ensures once { (other : List ℕ) → (shelf_seen self.new).faults other ≤ one_more ((shelf_seen self.old).faults other) }
        ensures asked { (shelf_seen self.new).fetches ≡ (shelf_seen self.old).fetches }
        ensures given { IfOk result (λ count. 0 < length into.old → (shelf_seen self.new).given ≡ counted (shelf_seen self.old).given count) }
        ensures end { IfOk result (λ count. 0 < length into.old → count ≡ 0 → (shelf_seen self.new).ends ≡ one_more (shelf_seen self.old).ends) }
        ensures more { IfOk result (λ count. 0 < count → (shelf_seen self.new).ends ≡ (shelf_seen self.old).ends) }
        ensures none_given { OnErr result ((shelf_seen self.new).given ≡ (shelf_seen self.old).given) }
        ensures no_end { OnErr result ((shelf_seen self.new).ends ≡ (shelf_seen self.old).ends) }
        ensures sure { IsOk result }
        ensures full { IfOk result (λ count. count ≡ min (length (sure_left self.old)) (length into.old)) }
    {
        if into.is_empty() {
            return Ok(0);
        }
        let count = copy_from(&self.text, self.at, into);
        self.at += count;
        self.reads.count(count);
        Ok(count)
    }
}

/// A source that never fails.
#[derive(Drop)]
pub struct SureSource {
    bytes: Vec<u8>,
    at: usize,
    reads: Reads,
    ghost within: { at ≤ vec_len bytes },
}

impl SureSource {
    ghost use Rattle.cf_io.specs.Sure.{source_seen, sure_bytes};

    /// A source of these bytes.
    pub fn new(left: Bytes) -> SureSource
        ensures bytes { sure_bytes result ≡ left }
        ensures given { (source_seen result).given ≡ 0 }
        ensures ends { (source_seen result).ends ≡ 0 }
    {
        SureSource {
            bytes: left.bytes,
            at: 0,
            reads: Reads::new(),
        }
    }
}

impl Source for SureSource {
    ghost use Rattle.std.specs.Prelude.{ℕ, Some, length, drop, min, is_some, IsOk, IfOk, OnOk, OnErr};
    ghost use Rattle.std.specs.Io.{ReadsAtMost};
    ghost use Rattle.std.specs.Io.KnownBytes.{ReadConsumes};
    ghost use Rattle.cf_io.specs.Causes.{Rose, ChangesNothing, counted, one_more};
    ghost use Rattle.cf_io.specs.Sure.{source_seen, sure_bytes};

    ghost seen = { λ s. source_seen s };

    fn read(&mut self, into: &mut [u8]) -> Result<usize, Failed>
        ensures bound { ReadsAtMost result into.new }
        ensures bytes { ReadConsumes (source_seen self.old).left (source_seen self.new).left result into.new }
        ensures told { is_some (source_seen self.new).left ≡ is_some (source_seen self.old).left }
        ensures nothing { ChangesNothing into.old result self.old self.new }
        ensures failed { OnErr result (Rose (source_seen self.old).faults (source_seen self.new).faults) }
        ensures counts { (source_seen self.old).faults ≤ (source_seen self.new).faults }
        ensures last { (source_seen self.new).faults < 2 ^ 64 }
        ensures same { OnOk result ((source_seen self.new).faults ≡ (source_seen self.old).faults) }
        ensures once { (source_seen self.new).faults ≤ one_more (source_seen self.old).faults }
        ensures given { IfOk result (λ count. 0 < length into.old → (source_seen self.new).given ≡ counted (source_seen self.old).given count) }
        ensures end { IfOk result (λ count. 0 < length into.old → count ≡ 0 → (source_seen self.new).ends ≡ one_more (source_seen self.old).ends) }
        ensures more { IfOk result (λ count. 0 < count → (source_seen self.new).ends ≡ (source_seen self.old).ends) }
        ensures none_given { OnErr result ((source_seen self.new).given ≡ (source_seen self.old).given) }
        ensures no_end { OnErr result ((source_seen self.new).ends ≡ (source_seen self.old).ends) }
        ensures sure { IsOk result }
        ensures full { IfOk result (λ count. count ≡ min (length (sure_bytes self.old)) (length into.old)) }
    {
        if into.is_empty() {
            return Ok(0);
        }
        let count = copy_from(&self.bytes, self.at, into);
        self.at += count;
        self.reads.count(count);
        Ok(count)
    }
}

/// A sink that takes every piece whole and tells no content. It never fails.
///
/// It keeps the number of bytes taken, which stays at its last value.
#[derive(Drop)]
pub struct SureSink {
    taken: u64,
    ghost counted: { taken < 2 ^ 64 },
}

impl SureSink {
    ghost use Rattle.cf_io.specs.Sure.{sure_taken};

    /// A sink that took nothing yet.
    pub fn new() -> SureSink
        ensures { sure_taken result ≡ 0 }
    {
        SureSink { taken: 0 }
    }
}

impl Sink for SureSink {
    ghost use Rattle.std.specs.Prelude.{◌+◌, ◌-◌, ℕ, List, None, Ok, length, min, is_some, IfOk, OnOk, OnErr};
    ghost use Rattle.std.specs.Io.{WritesAtMost};
    ghost use Rattle.std.specs.Io.KnownBytes.{WriteAppends};
    ghost use Rattle.cf_io.specs.Causes.{Rose, ChangesNothing, one_more};
    ghost use Rattle.cf_io.specs.Sure.{sink_seen, sure_taken};

    ghost seen = { λ s. sink_seen s };

    fn write(&mut self, from: &[u8]) -> Result<usize, Failed>
        ensures bound { WritesAtMost result from.now }
        ensures bytes { WriteAppends (sink_seen self.old).held (sink_seen self.new).held result from.now }
        ensures told { is_some (sink_seen self.new).held ≡ is_some (sink_seen self.old).held }
        ensures nothing { ChangesNothing from.now result self.old self.new }
        ensures some { IfOk result (λ count. 0 < length from.now → 0 < count) }
        ensures failed { OnErr result (Rose (sink_seen self.old).faults (sink_seen self.new).faults) }
        ensures counts { (sink_seen self.old).faults ≤ (sink_seen self.new).faults }
        ensures last { (sink_seen self.new).faults < 2 ^ 64 }
        ensures same { OnOk result ((sink_seen self.new).faults ≡ (sink_seen self.old).faults) }
        ensures once { (sink_seen self.new).faults ≤ one_more (sink_seen self.old).faults }
        ensures whole { result ≡ Ok (length from.now) }
        ensures taken { sure_taken self.new ≡ min (sure_taken self.old + length from.now) (2 ^ 64 - 1) }
    {
        if from.is_empty() {
            return Ok(0);
        }
        let count = from.len();
        self.taken = self.taken.saturating_add(count as u64);
        Ok(count)
    }

    fn has_lost_reader(&self) -> bool {
        false
    }
}
