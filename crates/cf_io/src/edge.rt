//! The trusted edge: files and the standard streams. These objects tell no content.
ghost use Rattle.std.specs.Prelude.{◌≡◌, ◌<◌, ◌^◌, None, IfOk};
ghost use Rattle.std.specs.Io.{ReadsAtMost, WritesAtMost};
ghost use Rattle.std.specs.Io.KnownBytes.{ReadConsumes, WriteAppends};

use crate::faults::{Failed, FetchFault};
use crate::reads::Reads;
use crate::traits::{Shelf, Sink, Source};
use std::alloc::Global;
use std::fs;
use std::io::{ErrorKind, Read, Write};
use std::rt::Files;

// How often an interrupted call is tried again before it counts as a fault.
const MOST_TRIES: u32 = 65_536;

// The path of the file of this name.
fn path_of(name: &str) -> &str {
    if name == "-" { "/dev/stdin" } else { name }
}

// One read, tried again where it was interrupted.
fn read_again<R: Read>(inner: &mut R, into: &mut [u8]) -> Result<usize, Failed>
    ensures bound { ReadsAtMost result into.new }
    ensures bytes { ReadConsumes (R.remaining inner.old) (R.remaining inner.new) result into.new }
{
    'tries: for _ in 0..MOST_TRIES {
        match inner.read(into) {
            Ok(count) => return Ok(count),
            Err(fault) if fault.kind() == ErrorKind::Interrupted => {}
            Err(_) => return Err(Failed),
        }
    }
    Err(Failed)
}

// One write, tried again where it was interrupted; or why it failed. A writer that takes nothing failed.
fn write_again<W: Write>(inner: &mut W, from: &[u8]) -> Result<usize, ErrorKind>
    ensures bound { WritesAtMost result from.now }
    ensures bytes { WriteAppends (W.contents inner.old) (W.contents inner.new) result from.now }
    ensures some { IfOk result (λ count. 0 < count) }
{
    'tries: for _ in 0..MOST_TRIES {
        match inner.write(from) {
            Ok(0) => return Err(ErrorKind::WriteZero),
            Ok(count) => return Ok(count),
            Err(fault) if fault.kind() == ErrorKind::Interrupted => {}
            Err(fault) => return Err(fault.kind()),
        }
    }
    Err(ErrorKind::Interrupted)
}

/// A source over a reader, as the standard input. An interrupted call is no fault.
#[derive(Drop)]
pub struct ReadSource<R> {
    inner: R,
    faults: u64,
    reads: Reads,
    ghost counted: { faults < 2 ^ 64 },
}

impl<R: Read> ReadSource<R> {
    /// A source over `inner`, with no fault and no read yet.
    pub fn new(inner: R) -> ReadSource<R>
        ensures inner { result.inner ≡ inner }
        ensures faults { result.faults ≡ 0 }
        ensures given { result.reads.given ≡ 0 }
        ensures ends { result.reads.ends ≡ 0 }
    {
        ReadSource {
            inner,
            faults: 0,
            reads: Reads::new(),
        }
    }
}

impl<R: Read> Source for ReadSource<R> {
    ghost use Rattle.std.specs.Prelude.{◌≤◌, ℕ, List, length, is_some, IfOk, OnOk, OnErr};
    ghost use Rattle.cf_io.specs.Causes.{Rose, ChangesNothing, counted, one_more};
    ghost use Rattle.cf_io.specs.Seen.{untold_source};

    ghost seen = { λ s. untold_source s.faults s.reads.given s.reads.ends };

    fn read(&mut self, into: &mut [u8]) -> Result<usize, Failed>
        ensures bound { ReadsAtMost result into.new }
        ensures bytes { ReadConsumes None None result into.new }
        ensures told { is_some {T = List ℕ} None ≡ is_some {T = List ℕ} None }
        ensures nothing { ChangesNothing into.old result self.old self.new }
        ensures failed { OnErr result (Rose self.old.faults self.new.faults) }
        ensures counts { self.old.faults ≤ self.new.faults }
        ensures last { self.new.faults < 2 ^ 64 }
        ensures same { OnOk result (self.new.faults ≡ self.old.faults) }
        ensures once { self.new.faults ≤ one_more self.old.faults }
        ensures given { IfOk result (λ count. 0 < length into.old → self.new.reads.given ≡ counted self.old.reads.given count) }
        ensures end { IfOk result (λ count. 0 < length into.old → count ≡ 0 → self.new.reads.ends ≡ one_more self.old.reads.ends) }
        ensures more { IfOk result (λ count. 0 < count → self.new.reads.ends ≡ self.old.reads.ends) }
        ensures none_given { OnErr result (self.new.reads.given ≡ self.old.reads.given) }
        ensures no_end { OnErr result (self.new.reads.ends ≡ self.old.reads.ends) }
        // It gives the reader's bytes, and after a fault the reader has left what it had.
        ensures inner { ReadConsumes (R.remaining self.old.inner) (R.remaining self.new.inner) result into.new }
        ensures counted { OnErr result (self.new.faults ≡ one_more self.old.faults) }
    {
        if into.is_empty() {
            return Ok(0);
        }
        match read_again(&mut self.inner, into) {
            Ok(count) => {
                self.reads.count(count);
                Ok(count)
            }
            Err(_) => {
                self.faults = self.faults.saturating_add(1);
                Err(Failed)
            }
        }
    }
}

/// A sink over a writer, as the standard output. An interrupted call is no fault.
#[derive(Drop)]
pub struct WriteSink<W> {
    inner: W,
    faults: u64,
    has_lost_reader: bool,
    ghost counted: { faults < 2 ^ 64 },
}

impl<W: Write> WriteSink<W> {
    /// A sink over `inner`, with no fault yet.
    pub fn new(inner: W) -> WriteSink<W>
        ensures inner { result.inner ≡ inner }
        ensures faults { result.faults ≡ 0 }
    {
        WriteSink {
            inner,
            faults: 0,
            has_lost_reader: false,
        }
    }
}

impl<W: Write> Sink for WriteSink<W> {
    ghost use Rattle.std.specs.Prelude.{◌≤◌, ℕ, List, length, is_some, IfOk, OnOk, OnErr};
    ghost use Rattle.cf_io.specs.Causes.{Rose, ChangesNothing, one_more};
    ghost use Rattle.cf_io.specs.Seen.{untold_sink};

    ghost seen = { λ s. untold_sink s.faults };

    fn write(&mut self, from: &[u8]) -> Result<usize, Failed>
        ensures bound { WritesAtMost result from.now }
        ensures bytes { WriteAppends None None result from.now }
        ensures told { is_some {T = List ℕ} None ≡ is_some {T = List ℕ} None }
        ensures nothing { ChangesNothing from.now result self.old self.new }
        ensures some { IfOk result (λ count. 0 < length from.now → 0 < count) }
        ensures failed { OnErr result (Rose self.old.faults self.new.faults) }
        ensures counts { self.old.faults ≤ self.new.faults }
        ensures last { self.new.faults < 2 ^ 64 }
        ensures same { OnOk result (self.new.faults ≡ self.old.faults) }
        ensures once { self.new.faults ≤ one_more self.old.faults }
        // The writer takes the bytes, and after a fault it holds what it held.
        ensures inner { WriteAppends (W.contents self.old.inner) (W.contents self.new.inner) result from.now }
        ensures counted { OnErr result (self.new.faults ≡ one_more self.old.faults) }
    {
        if from.is_empty() {
            return Ok(0);
        }
        match write_again(&mut self.inner, from) {
            Ok(count) => Ok(count),
            Err(kind) => {
                self.faults = self.faults.saturating_add(1);
                self.has_lost_reader = kind == ErrorKind::BrokenPipe;
                Err(Failed)
            }
        }
    }

    fn has_lost_reader(&self) -> bool {
        self.has_lost_reader
    }
}

/// A shelf over files: a name is a path, and `-` is the standard input. It is turned to every name, and has one count for all.
#[derive(Drop)]
pub struct FileShelf<'a, R: Files> {
    rt: &'a R,
    file: Option<R::File>,
    faults: u64,
    fetches: u64,
    reads: Reads,
    ghost counted: { faults < 2 ^ 64 },
}

impl<'a, R: Files> FileShelf<'a, R> {
    /// A shelf over the files of `rt`, with no fault and no read yet.
    pub fn new(rt: &'a R) -> FileShelf<'a, R>
        ensures file { result.file ≡ None }
        ensures faults { result.faults ≡ 0 }
        ensures fetches { result.fetches ≡ 0 }
        ensures given { result.reads.given ≡ 0 }
        ensures ends { result.reads.ends ≡ 0 }
    {
        FileShelf {
            rt,
            file: None,
            faults: 0,
            fetches: 0,
            reads: Reads::new(),
        }
    }
}

impl<'a, R: Files> Shelf for FileShelf<'a, R> {
    ghost use Rattle.std.specs.Prelude.{◌↔◌, ◌≤◌, ℕ, List, Option, length, is_some, IsSome, IfOk, IfSome, OnOk, OnErr, IsErrOf};
    ghost use Rattle.cf_io.specs.Causes.{Rose, ChangesNothing, counted, one_more};
    ghost use Rattle.cf_io.specs.Seen.{untold_shelf};

    ghost seen = { λ s. untold_shelf s.faults s.fetches s.reads.given s.reads.ends };

    ghost turned = { λ s name. Unit {0} };

    fn fetch(&mut self, alloc: Global, name: &str) -> Result<(), FetchFault>
        ensures start { OnOk result (◌≡◌ {A = Option (List ℕ)} None None) }
        ensures turned { OnOk result (Unit {0}) }
        ensures told { is_some {T = List ℕ} None ≡ is_some {T = List ℕ} None }
        ensures kept { OnErr result (◌≡◌ {A = Option (List ℕ)} None None) }
        ensures stays { OnErr result ((other : List ℕ) → Unit {0} ↔ Unit {0}) }
        ensures failed { IsErrOf result FetchFault.Failed → Rose self.old.faults self.new.faults }
        ensures texts { (other : List ℕ) → ◌≡◌ {A = Option (List ℕ)} None None }
        ensures counts { (other : List ℕ) → self.old.faults ≤ self.new.faults }
        ensures last { (other : List ℕ) → self.new.faults < 2 ^ 64 }
        ensures same { ¬ IsErrOf result FetchFault.Failed → (other : List ℕ) → self.new.faults ≡ self.old.faults }
        ensures once { (other : List ℕ) → self.new.faults ≤ one_more self.old.faults }
        ensures asked { self.new.fetches ≡ one_more self.old.fetches }
        ensures given { self.new.reads.given ≡ self.old.reads.given }
        ensures ends { self.new.reads.ends ≡ self.old.reads.ends }
        ensures opened { OnOk result (IsSome self.new.file) }
        // A file that was not opened leaves the one before it.
        ensures file { OnErr result (self.new.file ≡ self.old.file) }
        ensures counted { IsErrOf result FetchFault.Failed → self.new.faults ≡ one_more self.old.faults }
    {
        self.fetches = self.fetches.saturating_add(1);
        match fs::open(self.rt, path_of(name)) {
            Ok(file) => {
                self.file = Some(file);
                Ok(())
            }
            Err(fault) => {
                if fault.kind() == ErrorKind::OutOfMemory {
                    return Err(FetchFault::NoMemory);
                }
                self.faults = self.faults.saturating_add(1);
                Err(FetchFault::Failed)
            }
        }
    }

    fn read(&mut self, into: &mut [u8]) -> Result<usize, Failed>
        ensures bound { ReadsAtMost result into.new }
        ensures bytes { ReadConsumes None None result into.new }
        ensures told { is_some {T = List ℕ} None ≡ is_some {T = List ℕ} None }
        ensures nothing { ChangesNothing into.old result self.old self.new }
        ensures failed { OnErr result ((name : List ℕ) → Unit {0} → Rose self.old.faults self.new.faults) }
        ensures turned { (name : List ℕ) → Unit {0} ↔ Unit {0} }
        ensures texts { (other : List ℕ) → ◌≡◌ {A = Option (List ℕ)} None None }
        ensures counts { (other : List ℕ) → self.old.faults ≤ self.new.faults }
        ensures last { (other : List ℕ) → self.new.faults < 2 ^ 64 }
        ensures same { OnOk result ((other : List ℕ) → self.new.faults ≡ self.old.faults) }
        ensures once { (other : List ℕ) → self.new.faults ≤ one_more self.old.faults }
        ensures asked { self.new.fetches ≡ self.old.fetches }
        ensures given { IfOk result (λ count. 0 < length into.old → self.new.reads.given ≡ counted self.old.reads.given count) }
        ensures end { IfOk result (λ count. 0 < length into.old → count ≡ 0 → self.new.reads.ends ≡ one_more self.old.reads.ends) }
        ensures more { IfOk result (λ count. 0 < count → self.new.reads.ends ≡ self.old.reads.ends) }
        ensures none_given { OnErr result (self.new.reads.given ≡ self.old.reads.given) }
        ensures no_end { OnErr result (self.new.reads.ends ≡ self.old.reads.ends) }
        // It gives the file's bytes, and after a fault the file has left what it had.
        ensures file { IfSome self.old.file (λ before. IfSome self.new.file
            (λ after. ReadConsumes (R.File.remaining before) (R.File.remaining after) result into.new)) }
        ensures opened { is_some self.new.file ≡ is_some self.old.file }
        ensures counted { OnErr result (self.new.faults ≡ one_more self.old.faults) }
    {
        if into.is_empty() {
            return Ok(0);
        }
        match &mut self.file {
            None => {
                self.reads.count(0);
                Ok(0)
            }
            Some(file) => match read_again(file, into) {
                Ok(count) => {
                    self.reads.count(count);
                    Ok(count)
                }
                Err(_) => {
                    self.faults = self.faults.saturating_add(1);
                    Err(Failed)
                }
            },
        }
    }
}
