//! The calls that are to fail.
ghost use Rattle.std.specs.Prelude.{◌↔◌, IsTrue, Contains};

/// Whether the call of that number is listed.
pub(crate) fn is_listed(fails: &[u64], number: u64) -> bool
    ensures { IsTrue result ↔ Contains fails.now number }
{
    fails.contains(&number)
}
