//! Why a choose is not solved.
use cf_linear::Refusal;
use cf_tree::NoMemory;
use std::alloc::{AllocError, AllocFailed};

/// The first limit that a choose passes, or want of memory.
#[derive(Clone, Copy, Debug, PartialEq, Eq)]
pub enum ChooseFault {
    Refused(Refusal),
    NoMemory,
}

impl From<NoMemory> for ChooseFault {
    ghost use Rattle.std.specs.Prelude.{◌≡◌};
    ghost use Rattle.cf_choose.specs.declared.fault.ChooseFault.TheVariants.{NoMemory};

    ghost from_gives = { λ _ e. e ≡ NoMemory };

    fn from(_e: NoMemory) -> ChooseFault {
        ChooseFault::NoMemory
    }
}

impl From<AllocError> for ChooseFault {
    ghost use Rattle.std.specs.Prelude.{◌≡◌};
    ghost use Rattle.cf_choose.specs.declared.fault.ChooseFault.TheVariants.{NoMemory};

    ghost from_gives = { λ _ e. e ≡ NoMemory };

    fn from(_e: AllocError) -> ChooseFault {
        ChooseFault::NoMemory
    }
}

impl<T: Drop> From<AllocFailed<T>> for ChooseFault {
    ghost use Rattle.std.specs.Prelude.{◌≡◌};
    ghost use Rattle.cf_choose.specs.declared.fault.ChooseFault.TheVariants.{NoMemory};

    ghost from_gives = { λ _ e. e ≡ NoMemory };

    fn from(_e: AllocFailed<T>) -> ChooseFault {
        ChooseFault::NoMemory
    }
}
