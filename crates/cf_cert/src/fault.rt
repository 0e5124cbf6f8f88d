//! Why a block certifies nothing.
ghost use Rattle.std.specs.Prelude.{◌≡◌};
ghost use Rattle.cf_cert.specs.Verifying.{whole_refusal};

use crate::verdict::Why;
use cf_choose::ChooseFault;
use cf_tree::NoMemory;
use std::alloc::AllocFailed;

// The first fault of a block, or want of memory. Case 0 with step 0 is the choose as a whole.
#[derive(Clone, Copy)]
pub(crate) enum JudgeFault {
    Rejected { case: u32, step: u32, why: Why },
    NoMemory,
}

impl From<NoMemory> for JudgeFault {
    ghost use Rattle.std.specs.Prelude.{◌≡◌};
    ghost use Rattle.cf_cert.specs.declared.fault.JudgeFault.TheVariants.{NoMemory};

    ghost from_gives = { λ _ e. e ≡ NoMemory };

    fn from(_e: NoMemory) -> JudgeFault {
        JudgeFault::NoMemory
    }
}

impl<T: Drop> From<AllocFailed<T>> for JudgeFault {
    ghost use Rattle.std.specs.Prelude.{◌≡◌};
    ghost use Rattle.cf_cert.specs.declared.fault.JudgeFault.TheVariants.{NoMemory};

    ghost from_gives = { λ _ e. e ≡ NoMemory };

    fn from(_e: AllocFailed<T>) -> JudgeFault {
        JudgeFault::NoMemory
    }
}

// A fault of the choose as a whole.
pub(crate) fn whole(why: Why) -> JudgeFault
    ensures { result ≡ JudgeFault.Rejected 0 0 why }
{
    JudgeFault::Rejected {
        case: 0,
        step: 0,
        why,
    }
}

// A limit that a choose passes.
pub(crate) fn whole_refusal(fault: ChooseFault) -> JudgeFault
    ensures { result ≡ whole_refusal fault }
{
    match fault {
        ChooseFault::Refused(refusal) => whole(Why::Refused(refusal)),
        ChooseFault::NoMemory => JudgeFault::NoMemory,
    }
}
