//! Why a program is not built.
use cf_linear::Refusal;
use cf_tree::NoMemory;
use std::alloc::{AllocError, AllocFailed};

/// Why a program is not built.
#[derive(Clone, Copy, Debug, PartialEq, Eq)]
pub enum BuildFault {
    /// A choose with this number passes a limit, and none with a smaller number does, nor one of
    /// this number before it in the text. The refusal is the first limit that it passes.
    Choose { number: u32, refusal: Refusal },
    /// Memory ran out.
    NoMemory,
}

impl From<NoMemory> for BuildFault {
    ghost use Rattle.std.specs.Prelude.{◌≡◌};
    ghost use Rattle.cf_build.specs.declared.fault.BuildFault.TheVariants.{NoMemory};

    ghost from_gives = { λ _ e. e ≡ NoMemory };

    fn from(_e: NoMemory) -> BuildFault {
        BuildFault::NoMemory
    }
}

impl From<AllocError> for BuildFault {
    ghost use Rattle.std.specs.Prelude.{◌≡◌};
    ghost use Rattle.cf_build.specs.declared.fault.BuildFault.TheVariants.{NoMemory};

    ghost from_gives = { λ _ e. e ≡ NoMemory };

    fn from(_e: AllocError) -> BuildFault {
        BuildFault::NoMemory
    }
}

impl<T: Drop> From<AllocFailed<T>> for BuildFault {
    ghost use Rattle.std.specs.Prelude.{◌≡◌};
    ghost use Rattle.cf_build.specs.declared.fault.BuildFault.TheVariants.{NoMemory};

    ghost from_gives = { λ _ e. e ≡ NoMemory };

    fn from(_e: AllocFailed<T>) -> BuildFault {
        BuildFault::NoMemory
    }
}
