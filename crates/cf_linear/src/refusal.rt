//! Refusals of a `choose`.
ghost use Rattle.std.specs.Prelude.{◌≡◌};

use cf_tree::NoMemory;
use std::alloc::{AllocError, AllocFailed};

/// The most set variables of a `choose`: parameters that occur in its relation, and outputs.
pub const MOST_SETS: usize = 6;

/// The most cases of a relation.
pub const MOST_CASES: u64 = 1024;

/// The most rows of a state of the elimination: equations, inequalities and all needs so far.
pub const MOST_ROWS: u64 = 1000;

/// The most columns of a state of the elimination, known and unknown.
pub const MOST_COLUMNS: u64 = 1000;

/// The most tuples of the searches of a case.
pub const MOST_TUPLES: u64 = 1_048_576;

/// Which counted limit a `choose` passes.
#[derive(Clone, Copy, Debug, PartialEq, Eq)]
pub enum LimitKind {
    /// Set variables.
    Sets,
    /// Cases of the relation.
    Cases,
    /// Rows of a state of the elimination.
    Rows,
    /// Columns of a state of the elimination.
    Columns,
    /// Tuples of the searches of a case.
    Search,
}

/// Why a `choose` is refused: a coefficient past the limit of numbers, or a counted limit with the
/// number that passes it, which stops at `2^64 - 1`.
#[derive(Clone, Copy, Debug, PartialEq, Eq)]
pub enum Refusal {
    Past,
    Limit { kind: LimitKind, number: u64 },
}

/// Why a row is not made.
#[derive(Clone, Copy, Debug, PartialEq, Eq)]
pub enum RowFault {
    /// An entry, or a product or a sum that makes it, passes the limit of numbers.
    Past,
    /// No memory is left.
    NoMemory,
}

impl From<NoMemory> for RowFault {
    ghost use Rattle.cf_linear.specs.declared.refusal.RowFault.{RowFault};

    ghost from_gives = { λ _ e. e ≡ RowFault.NoMemory };

    fn from(_e: NoMemory) -> RowFault {
        RowFault::NoMemory
    }
}

impl From<AllocError> for RowFault {
    ghost use Rattle.cf_linear.specs.declared.refusal.RowFault.{RowFault};

    ghost from_gives = { λ _ e. e ≡ RowFault.NoMemory };

    fn from(_e: AllocError) -> RowFault {
        RowFault::NoMemory
    }
}

impl<T: Drop> From<AllocFailed<T>> for RowFault {
    ghost use Rattle.cf_linear.specs.declared.refusal.RowFault.{RowFault};

    ghost from_gives = { λ _ e. e ≡ RowFault.NoMemory };

    fn from(_e: AllocFailed<T>) -> RowFault {
        RowFault::NoMemory
    }
}
