//! The faults of the outside.
ghost use Rattle.std.specs.Prelude.{◌≡◌};
ghost use Rattle.cf_io.specs.Faults.{of_fetch};
ghost use Rattle.cf_io.specs.declared.faults.FetchFault.TheVariants as fetch_fault;

use std::alloc::AllocError;

/// A call of an object outside failed.
#[derive(Clone, Copy, Debug, PartialEq, Eq)]
pub struct Failed;

/// Why a text was not fetched, or not read.
#[derive(Clone, Copy, Debug, PartialEq, Eq)]
pub enum FetchFault {
    Failed,
    NoMemory,
}

/// Why a text was not read.
#[derive(Clone, Copy, Debug, PartialEq, Eq)]
pub enum ReadFault {
    Failed,
    /// More bytes came than the limit.
    TooLong,
    NoMemory,
}

impl From<Failed> for FetchFault {
    ghost from_gives = { λ _ e. e ≡ fetch_fault.Failed };

    fn from(_fault: Failed) -> FetchFault {
        FetchFault::Failed
    }
}

impl From<AllocError> for FetchFault {
    ghost from_gives = { λ _ e. e ≡ fetch_fault.NoMemory };

    fn from(_error: AllocError) -> FetchFault {
        FetchFault::NoMemory
    }
}

impl From<FetchFault> for ReadFault {
    ghost from_gives = { λ fault e. e ≡ of_fetch fault };

    fn from(fault: FetchFault) -> ReadFault {
        match fault {
            FetchFault::Failed => ReadFault::Failed,
            FetchFault::NoMemory => ReadFault::NoMemory,
        }
    }
}
