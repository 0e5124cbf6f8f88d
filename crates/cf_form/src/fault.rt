//! Why a program is not formed.
use cf_tree::NoMemory;
use std::alloc::{AllocError, AllocFailed};

/// Why a program is not formed: the first limit that it passes, or want of memory. Counts stop at
/// `2^64 - 1`.
#[derive(Clone, Copy, Debug, PartialEq, Eq)]
pub enum FormFault {
    /// An atom in the relation of the choose with this number has so many alternatives, which are
    /// more than `MOST_ALTERNATIVES`.
    Cases { number: u32, count: u64 },
    /// The weight of the formed function with this number, counted from 0, passes 1,000,000.
    Weight { function: u32, weight: u64 },
    /// The unfolded depth of the formed function with this number passes 200.
    Depth { function: u32, depth: u64 },
    NoMemory,
}

impl From<NoMemory> for FormFault {
    ghost use Rattle.std.specs.Prelude.{◌≡◌};
    ghost use Rattle.cf_form.specs.declared.fault.FormFault.TheVariants.{NoMemory};

    ghost from_gives = { λ _ e. e ≡ NoMemory };

    fn from(_e: NoMemory) -> FormFault {
        FormFault::NoMemory
    }
}

impl From<AllocError> for FormFault {
    ghost use Rattle.std.specs.Prelude.{◌≡◌};
    ghost use Rattle.cf_form.specs.declared.fault.FormFault.TheVariants.{NoMemory};

    ghost from_gives = { λ _ e. e ≡ NoMemory };

    fn from(_e: AllocError) -> FormFault {
        FormFault::NoMemory
    }
}

impl<T: Drop> From<AllocFailed<T>> for FormFault {
    ghost use Rattle.std.specs.Prelude.{◌≡◌};
    ghost use Rattle.cf_form.specs.declared.fault.FormFault.TheVariants.{NoMemory};

    ghost from_gives = { λ _ e. e ≡ NoMemory };

    fn from(_e: AllocFailed<T>) -> FormFault {
        FormFault::NoMemory
    }
}
