//! Why words gave no command.
ghost use Rattle.std.specs.Prelude.{◌≡◌, ◌≢◌};
ghost use Rattle.clap.specs.Words.{kind_of};
ghost use Rattle.clap.specs.declared.error.kind.ErrorKind.TheVariants.{OutOfMemory};
ghost use Rattle.cf_words.specs.declared.fault.WordsFault.TheVariants.{Usage};

use clap::error::ErrorKind;

/// Why words gave no command.
#[derive(Clone, Copy, Debug, PartialEq, Eq)]
pub enum WordsFault {
    /// The words are no command.
    Usage,
    /// No memory is left.
    NoMemory,
}

/// The fault behind an error of `clap`.
pub(crate) fn fault_of(error: &clap::Error) -> WordsFault
    ensures { result ≡ Usage → kind_of error.now ≢ OutOfMemory }
{
    match error.kind() {
        ErrorKind::OutOfMemory => WordsFault::NoMemory,
        _ => WordsFault::Usage,
    }
}
