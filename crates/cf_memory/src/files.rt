//! A shelf of files in memory.
ghost use Rattle.std.specs.Prelude.{◌≡◌, ◌<◌, ◌≤◌, ◌^◌, length};

use crate::file::{File, place_of, text_at};
use crate::text::{behind, copy_front};
use cf_io::{Failed, FetchFault, Shelf};
use std::alloc::Global;

/// A shelf of files. It fails only at a name that no file has; of two files of one name the first counts.
#[derive(Drop)]
pub struct Files<'a> {
    files: &'a [File<'a>],
    left: &'a [u8],
    missed: u64,
    fetches: u64,
    given: u64,
    ends: u64,
    ghost missed_counted: { missed < 2 ^ 64 },
    ghost fetches_counted: { fetches < 2 ^ 64 },
    ghost given_counted: { given < 2 ^ 64 },
    ghost ends_counted: { ends < 2 ^ 64 },
}

impl<'a> Files<'a> {
    ghost use Rattle.cf_memory.specs.Files.{files_seen, fresh_files};

    /// A shelf of these files. Before the first fetch nothing is left.
    pub fn new(files: &'a [File<'a>]) -> Files<'a>
        ensures { files_seen result ≡ fresh_files files.now }
    {
        Files {
            files,
            left: &[],
            missed: 0,
            fetches: 0,
            given: 0,
            ends: 0,
        }
    }
}

impl<'a> Shelf for Files<'a> {
    ghost use Rattle.std.specs.Prelude.{◌↔◌, ℕ, List, Some, is_some, IsNone, IsOk, IsErr, IfOk, IfErr, OnOk, OnErr, IsErrOf};
    ghost use Rattle.std.specs.Io.{ReadsAtMost};
    ghost use Rattle.std.specs.Io.KnownBytes.{ReadConsumes};
    ghost use Rattle.cf_io.specs.Causes.{Rose, ChangesNothing, counted, one_more};
    ghost use Rattle.cf_memory.specs.Files.{files_seen};

    ghost seen = { λ s. files_seen s };

    ghost turned = { λ s name. Unit {0} };

    fn fetch(&mut self, alloc: Global, name: &str) -> Result<(), FetchFault>
        ensures start { OnOk result ((files_seen self.new).left ≡ (files_seen self.old).texts name.now) }
        ensures turned { OnOk result (Unit {0}) }
        ensures told { is_some (files_seen self.new).left ≡ is_some (files_seen self.old).left }
        ensures kept { OnErr result ((files_seen self.new).left ≡ (files_seen self.old).left) }
        ensures stays { OnErr result ((other : List ℕ) → Unit {0} ↔ Unit {0}) }
        ensures failed { IsErrOf result FetchFault.Failed → Rose ((files_seen self.old).faults name.now) ((files_seen self.new).faults name.now) }
        ensures texts { (other : List ℕ) → (files_seen self.new).texts other ≡ (files_seen self.old).texts other }
        ensures counts { (other : List ℕ) → (files_seen self.old).faults other ≤ (files_seen self.new).faults other }
        ensures last { (other : List ℕ) → (files_seen self.new).faults other < 2 ^ 64 }
        ensures same { ¬ IsErrOf result FetchFault.Failed → (other : List ℕ) → (files_seen self.new).faults other ≡ (files_seen self.old).faults other }
        ensures once { (other : List ℕ) → (files_seen self.new).faults other ≤ one_more ((files_seen self.old).faults other) }
        ensures asked { (files_seen self.new).fetches ≡ one_more (files_seen self.old).fetches }
        ensures given { (files_seen self.new).given ≡ (files_seen self.old).given }
        ensures ends { (files_seen self.new).ends ≡ (files_seen self.old).ends }
        // It fails exactly at a name that no file has, and never for want of memory.
        ensures missing { IsErr result ↔ IsNone ((files_seen self.old).texts name.now) }
        ensures fault { IfErr result (λ fault. fault ≡ FetchFault.Failed) }
    {
        self.fetches = self.fetches.saturating_add(1);
        match place_of(self.files, name.as_bytes()) {
            Some(place) => {
                self.left = text_at(self.files, place);
                Ok(())
            }
            None => {
                self.missed = self.missed.saturating_add(1);
                Err(FetchFault::Failed)
            }
        }
    }

    fn read(&mut self, into: &mut [u8]) -> Result<usize, Failed>
        ensures bound { ReadsAtMost result into.new }
        ensures bytes { ReadConsumes (files_seen self.old).left (files_seen self.new).left result into.new }
        ensures told { is_some (files_seen self.new).left ≡ is_some (files_seen self.old).left }
        ensures nothing { ChangesNothing into.old result self.old self.new }
        ensures failed { OnErr result ((name : List ℕ) → Unit {0} → Rose ((files_seen self.old).faults name) ((files_seen self.new).faults name)) }
        ensures turned { (name : List ℕ) → Unit {0} ↔ Unit {0} }
        ensures texts { (other : List ℕ) → (files_seen self.new).texts other ≡ (files_seen self.old).texts other }
        ensures counts { (other : List ℕ) → (files_seen self.old).faults other ≤ (files_seen self.new).faults other }
        ensures last { (other : List ℕ) → (files_seen self.new).faults other < 2 ^ 64 }
        ensures same { OnOk result ((other : List ℕ) → (files_seen self.new).faults other ≡ (files_seen self.old).faults other) }
        ensures once { (other : List ℕ) → (files_seen self.new).faults other ≤ one_more ((files_seen self.old).faults other) }
        ensures asked { (files_seen self.new).fetches ≡ (files_seen self.old).fetches }
        ensures given { IfOk result (λ count. 0 < length into.old → (files_seen self.new).given ≡ counted (files_seen self.old).given count) }
        ensures end { IfOk result (λ count. 0 < length into.old → count ≡ 0 → (files_seen self.new).ends ≡ one_more (files_seen self.old).ends) }
        ensures more { IfOk result (λ count. 0 < count → (files_seen self.new).ends ≡ (files_seen self.old).ends) }
        ensures none_given { OnErr result ((files_seen self.new).given ≡ (files_seen self.old).given) }
        ensures no_end { OnErr result ((files_seen self.new).ends ≡ (files_seen self.old).ends) }
        ensures sure { IsOk result }
    {
        if into.is_empty() {
            return Ok(0);
        }
        let count = copy_front(self.left, into);
        self.left = behind(self.left, count);
        self.given = self.given.saturating_add(count as u64);
        if count == 0 {
            self.ends = self.ends.saturating_add(1);
        }
        Ok(count)
    }
}
