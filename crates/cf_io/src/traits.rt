//! What each object outside tells of its content, where it tells it, and of its faults and reads.
//!
//! Each count is a u64 that never falls, and at its last value it stays. Only a call that fails raises that of faults, and by one.
ghost use Rattle.std.specs.Prelude.{◌≡◌, ◌↔◌, ◌≤◌, ◌<◌, ◌^◌, ℕ, List, length, is_some, OnOk, OnErr, IfOk, IsErrOf};
ghost use Rattle.std.specs.Io.{ReadsAtMost, WritesAtMost};
ghost use Rattle.std.specs.Io.KnownBytes.{ReadConsumes, WriteAppends};
ghost use Rattle.cf_io.specs.Causes.{Rose, ChangesNothing, counted, one_more};
ghost use Rattle.cf_io.specs.Seen.{ShelfSeen, SinkSeen, SourceSeen};

use crate::faults::{Failed, FetchFault};
use std::alloc::Global;

/// A shelf of texts under names.
pub trait Shelf {
    /// What it tells of itself.
    ghost seen: { Self → ShelfSeen };

    /// Whether it is turned to a name.
    ghost turned: { Self → List ℕ → Type 0 };

    /// Turns to the text of that name, at its start. A fetch counts whatever it answers.
    fn fetch(&mut self, alloc: Global, name: &str) -> Result<(), FetchFault>
        ensures start { OnOk result ((seen self.new).left ≡ (seen self.old).texts name.now) }
        ensures turned { OnOk result (turned self.new name.now) }
        ensures told { is_some (seen self.new).left ≡ is_some (seen self.old).left }
        ensures kept { OnErr result ((seen self.new).left ≡ (seen self.old).left) }
        ensures stays { OnErr result ((other : List ℕ) → turned self.old other ↔ turned self.new other) }
        ensures failed { IsErrOf result FetchFault.Failed → Rose ((seen self.old).faults name.now) ((seen self.new).faults name.now) }
        ensures texts { (other : List ℕ) → (seen self.new).texts other ≡ (seen self.old).texts other }
        ensures counts { (other : List ℕ) → (seen self.old).faults other ≤ (seen self.new).faults other }
        ensures last { (other : List ℕ) → (seen self.new).faults other < 2 ^ 64 }
        ensures same { ¬ IsErrOf result FetchFault.Failed → (other : List ℕ) → (seen self.new).faults other ≡ (seen self.old).faults other }
        ensures once { (other : List ℕ) → (seen self.new).faults other ≤ one_more ((seen self.old).faults other) }
        ensures asked { (seen self.new).fetches ≡ one_more (seen self.old).fetches }
        ensures given { (seen self.new).given ≡ (seen self.old).given }
        ensures ends { (seen self.new).ends ≡ (seen self.old).ends };

    /// Puts the next bytes of the fetched text into the front of `into`, and says how many.
    /// None for a slice that is not empty is the end.
    fn read(&mut self, into: &mut [u8]) -> Result<usize, Failed>
        ensures bound { ReadsAtMost result into.new }
        ensures bytes { ReadConsumes (seen self.old).left (seen self.new).left result into.new }
        ensures told { is_some (seen self.new).left ≡ is_some (seen self.old).left }
        ensures nothing { ChangesNothing into.old result self.old self.new }
        ensures failed { OnErr result ((name : List ℕ) → turned self.old name → Rose ((seen self.old).faults name) ((seen self.new).faults name)) }
        ensures turned { (name : List ℕ) → turned self.old name ↔ turned self.new name }
        ensures texts { (other : List ℕ) → (seen self.new).texts other ≡ (seen self.old).texts other }
        ensures counts { (other : List ℕ) → (seen self.old).faults other ≤ (seen self.new).faults other }
        ensures last { (other : List ℕ) → (seen self.new).faults other < 2 ^ 64 }
        ensures same { OnOk result ((other : List ℕ) → (seen self.new).faults other ≡ (seen self.old).faults other) }
        ensures once { (other : List ℕ) → (seen self.new).faults other ≤ one_more ((seen self.old).faults other) }
        ensures asked { (seen self.new).fetches ≡ (seen self.old).fetches }
        ensures given { IfOk result (λ count. 0 < length into.old → (seen self.new).given ≡ counted (seen self.old).given count) }
        ensures end { IfOk result (λ count. 0 < length into.old → count ≡ 0 → (seen self.new).ends ≡ one_more (seen self.old).ends) }
        ensures more { IfOk result (λ count. 0 < count → (seen self.new).ends ≡ (seen self.old).ends) }
        ensures none_given { OnErr result ((seen self.new).given ≡ (seen self.old).given) }
        ensures no_end { OnErr result ((seen self.new).ends ≡ (seen self.old).ends) };
}

/// A source of bytes.
pub trait Source {
    /// What it tells of itself.
    ghost seen: { Self → SourceSeen };

    /// Puts the next bytes into the front of `into`, and says how many.
    /// None for a slice that is not empty is the end.
    fn read(&mut self, into: &mut [u8]) -> Result<usize, Failed>
        ensures bound { ReadsAtMost result into.new }
        ensures bytes { ReadConsumes (seen self.old).left (seen self.new).left result into.new }
        ensures told { is_some (seen self.new).left ≡ is_some (seen self.old).left }
        ensures nothing { ChangesNothing into.old result self.old self.new }
        ensures failed { OnErr result (Rose (seen self.old).faults (seen self.new).faults) }
        ensures counts { (seen self.old).faults ≤ (seen self.new).faults }
        ensures last { (seen self.new).faults < 2 ^ 64 }
        ensures same { OnOk result ((seen self.new).faults ≡ (seen self.old).faults) }
        ensures once { (seen self.new).faults ≤ one_more (seen self.old).faults }
        ensures given { IfOk result (λ count. 0 < length into.old → (seen self.new).given ≡ counted (seen self.old).given count) }
        ensures end { IfOk result (λ count. 0 < length into.old → count ≡ 0 → (seen self.new).ends ≡ one_more (seen self.old).ends) }
        ensures more { IfOk result (λ count. 0 < count → (seen self.new).ends ≡ (seen self.old).ends) }
        ensures none_given { OnErr result ((seen self.new).given ≡ (seen self.old).given) }
        ensures no_end { OnErr result ((seen self.new).ends ≡ (seen self.old).ends) };
}

/// A sink of bytes.
pub trait Sink {
    /// What it tells of itself.
    ghost seen: { Self → SinkSeen };

    /// Appends first bytes of `from`, and says how many. It takes at least one, where there is one.
    fn write(&mut self, from: &[u8]) -> Result<usize, Failed>
        ensures bound { WritesAtMost result from.now }
        ensures bytes { WriteAppends (seen self.old).held (seen self.new).held result from.now }
        ensures told { is_some (seen self.new).held ≡ is_some (seen self.old).held }
        ensures nothing { ChangesNothing from.now result self.old self.new }
        ensures some { IfOk result (λ count. 0 < length from.now → 0 < count) }
        ensures failed { OnErr result (Rose (seen self.old).faults (seen self.new).faults) }
        ensures counts { (seen self.old).faults ≤ (seen self.new).faults }
        ensures last { (seen self.new).faults < 2 ^ 64 }
        ensures same { OnOk result ((seen self.new).faults ≡ (seen self.old).faults) }
        ensures once { (seen self.new).faults ≤ one_more (seen self.old).faults };

    /// Whether the last fault was that whoever reads what is written went away, as far as the sink
    /// can tell.
    fn has_lost_reader(&self) -> bool;
}
