//! Forms that are not linear, with their causes.
ghost use Rattle.std.specs.Prelude.{◌≡◌};
ghost use Rattle.cf_program.specs.Linear.{bends};
ghost use Rattle.cf_help.specs.BendView.{Tells, root_seen};

use cf_tree::{NoMemory, Place, Text};
use std::alloc::{AllocError, AllocFailed, Global};

/// What stands in a relation that may not.
#[derive(Clone, Copy)]
pub enum Root {
    Choose,
    Match,
    SetLiteral,
    Inputs,
    Unknowns,
}

/// The first form that is not linear: its place, what it is, and the functions that are called down
/// to it, the innermost first.
#[derive(Drop)]
pub struct Bend {
    pub place: Place,
    pub root: Root,
    pub names: Vec<Text>,
}

/// Why a walk of a relation ends.
#[derive(Drop)]
pub enum BendFault {
    Bends(Bend),
    NoMemory,
}

impl From<NoMemory> for BendFault {
    ghost use Rattle.std.specs.Prelude.{◌≡◌};
    ghost use Rattle.cf_help.specs.declared.bend.BendFault.TheVariants.{NoMemory};

    ghost from_gives = { λ _ e. e ≡ NoMemory };

    fn from(_e: NoMemory) -> BendFault {
        BendFault::NoMemory
    }
}

impl From<AllocError> for BendFault {
    ghost use Rattle.std.specs.Prelude.{◌≡◌};
    ghost use Rattle.cf_help.specs.declared.bend.BendFault.TheVariants.{NoMemory};

    ghost from_gives = { λ _ e. e ≡ NoMemory };

    fn from(_e: AllocError) -> BendFault {
        BendFault::NoMemory
    }
}

impl<T: Drop> From<AllocFailed<T>> for BendFault {
    ghost use Rattle.std.specs.Prelude.{◌≡◌};
    ghost use Rattle.cf_help.specs.declared.bend.BendFault.TheVariants.{NoMemory};

    ghost from_gives = { λ _ e. e ≡ NoMemory };

    fn from(_e: AllocFailed<T>) -> BendFault {
        BendFault::NoMemory
    }
}

/// The fault of a form at a place.
pub fn bent(alloc: Global, place: Place, root: Root) -> BendFault
    ensures { Tells result (bends place (root_seen root)) }
{
    BendFault::Bends(Bend {
        place,
        root,
        names: Vec::new(alloc),
    })
}
