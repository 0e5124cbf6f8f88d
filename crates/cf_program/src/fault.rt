//! Broken rules.
use cf_tree::{NoMemory, Place};
use std::alloc::{AllocError, AllocFailed};

/// Why a program is refused: the first rule that it breaks, or want of memory.
#[derive(Clone, Copy, Debug, PartialEq, Eq)]
pub enum TypeFault {
    /// A variable is not in scope, or no function has the called name.
    UnknownName(Place),
    /// A name stands twice: of functions, of parameters, in one `let`, of outputs or in a pattern.
    /// The place is the later one's.
    DuplicateName(Place),
    /// A call has too few or too many arguments, or a `let` another number of names than its value
    /// has parts.
    WrongCount(Place),
    /// A part has another type than its form asks.
    Mismatch(Place),
    /// A form in the value of a constant is none of those that constants are made of, or a name
    /// stands for a divisor or a factor that is a variable.
    NotConstant(Place),
    /// A constant below 1 stands for a divisor.
    ConstantBelow(Place),
    /// A number in the value of a constant passes the limit, or the sum of the constants of a
    /// pattern does.
    ConstantPast(Place),
    /// A function calls itself or one that stands later.
    CallsLater(Place),
    /// No function is named `main`.
    NoMain,
    /// A form in a relation is not linear.
    NotLinear(Place),
    /// The weight of a function passes 1,000,000.
    Weight(u64),
    /// The unfolded depth of a function passes 200.
    Depth(u64),
    NoMemory,
}

impl From<NoMemory> for TypeFault {
    ghost use Rattle.std.specs.Prelude.{◌≡◌};
    ghost use Rattle.cf_program.specs.declared.fault.TypeFault.TheVariants.{NoMemory};

    ghost from_gives = { λ _ e. e ≡ NoMemory };

    fn from(_e: NoMemory) -> TypeFault {
        TypeFault::NoMemory
    }
}

impl From<AllocError> for TypeFault {
    ghost use Rattle.std.specs.Prelude.{◌≡◌};
    ghost use Rattle.cf_program.specs.declared.fault.TypeFault.TheVariants.{NoMemory};

    ghost from_gives = { λ _ e. e ≡ NoMemory };

    fn from(_e: AllocError) -> TypeFault {
        TypeFault::NoMemory
    }
}

impl<T: Drop> From<AllocFailed<T>> for TypeFault {
    ghost use Rattle.std.specs.Prelude.{◌≡◌};
    ghost use Rattle.cf_program.specs.declared.fault.TypeFault.TheVariants.{NoMemory};

    ghost from_gives = { λ _ e. e ≡ NoMemory };

    fn from(_e: AllocFailed<T>) -> TypeFault {
        TypeFault::NoMemory
    }
}
