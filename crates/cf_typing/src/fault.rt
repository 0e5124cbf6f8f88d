//! Why no target is made of a tree.
use cf_tree::NoMemory;
use std::alloc::{AllocError, AllocFailed};

/// Why no target is made of a tree.
#[derive(Clone, Copy, Debug, PartialEq, Eq)]
pub enum TargetFault {
    /// The tree is not well typed.
    BadTarget,
    NoMemory,
}

impl From<NoMemory> for TargetFault {
    ghost use Rattle.std.specs.Prelude.{◌≡◌};
    ghost use Rattle.cf_typing.specs.declared.fault.TargetFault.TheVariants as variants;

    ghost from_gives = { λ _ e. e ≡ variants.NoMemory };

    fn from(_e: NoMemory) -> TargetFault {
        TargetFault::NoMemory
    }
}

impl From<AllocError> for TargetFault {
    ghost use Rattle.std.specs.Prelude.{◌≡◌};
    ghost use Rattle.cf_typing.specs.declared.fault.TargetFault.TheVariants as variants;

    ghost from_gives = { λ _ e. e ≡ variants.NoMemory };

    fn from(_e: AllocError) -> TargetFault {
        TargetFault::NoMemory
    }
}

impl<T: Drop> From<AllocFailed<T>> for TargetFault {
    ghost use Rattle.std.specs.Prelude.{◌≡◌};
    ghost use Rattle.cf_typing.specs.declared.fault.TargetFault.TheVariants as variants;

    ghost from_gives = { λ _ e. e ≡ variants.NoMemory };

    fn from(_e: AllocFailed<T>) -> TargetFault {
        TargetFault::NoMemory
    }
}
