//! The counts of what reads gave.
ghost use Rattle.std.specs.Prelude.{◌≡◌, ◌<◌};
ghost use Rattle.cf_io.specs.Causes.{counted, one_more};

/// How many bytes reads have given, and how many of them have shown an end. Both stand still at `2^64 - 1`.
#[derive(Drop)]
pub(crate) struct Reads {
    pub(crate) given: u64,
    pub(crate) ends: u64,
}

impl Reads {
    /// No read yet.
    pub(crate) fn new() -> Reads
        ensures given { result.given ≡ 0 }
        ensures ends { result.ends ≡ 0 }
    {
        Reads { given: 0, ends: 0 }
    }

    /// A read gave so many bytes into a slice that is not empty.
    pub(crate) fn count(&mut self, count: usize)
        ensures given { self.new.given ≡ counted self.old.given count }
        ensures end { count ≡ 0 → self.new.ends ≡ one_more self.old.ends }
        ensures more { 0 < count → self.new.ends ≡ self.old.ends }
    {
        self.given = self.given.saturating_add(count as u64);
        if count == 0 {
            self.ends = self.ends.saturating_add(1);
        }
    }
}
