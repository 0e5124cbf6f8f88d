//! Why an elimination does not end.
use cf_linear::Refusal;
use cf_tree::NoMemory;
use std::alloc::{AllocError, AllocFailed};

/// The refusal that the elimination meets first, or want of memory.
#[derive(Clone, Copy, Debug, PartialEq, Eq)]
pub enum ElimFault {
    Refused(Refusal),
    NoMemory,
}

impl From<NoMemory> for ElimFault {
    ghost use Rattle.std.specs.Prelude.{◌≡◌};
    ghost use Rattle.cf_elim.specs.declared.fault.ElimFault.TheVariants.{NoMemory};

    ghost from_gives = { λ _ e. e ≡ NoMemory };

    fn from(_e: NoMemory) -> ElimFault {
        ElimFault::NoMemory
    }
}

impl From<AllocError> for ElimFault {
    ghost use Rattle.std.specs.Prelude.{◌≡◌};
    ghost use Rattle.cf_elim.specs.declared.fault.ElimFault.TheVariants.{NoMemory};

    ghost from_gives = { λ _ e. e ≡ NoMemory };

    fn from(_e: AllocError) -> ElimFault {
        ElimFault::NoMemory
    }
}

impl<T: Drop> From<AllocFailed<T>> for ElimFault {
    ghost use Rattle.std.specs.Prelude.{◌≡◌};
    ghost use Rattle.cf_elim.specs.declared.fault.ElimFault.TheVariants.{NoMemory};

    ghost from_gives = { λ _ e. e ≡ NoMemory };

    fn from(_e: AllocFailed<T>) -> ElimFault {
        ElimFault::NoMemory
    }
}
