//! Why something was not done to a node.
use cf_linear::RowFault;
use cf_tree::NoMemory;
use std::alloc::AllocFailed;

/// Why an operation was not done. Nothing has changed then.
#[derive(Clone, Copy, Debug, PartialEq, Eq)]
pub enum Fault {
    NoMemory,
    /// A product, a sum or an entry of a row passes 2^127 - 1.
    Past,
    /// The operation does not apply to what it names.
    Unfit,
}

impl From<NoMemory> for Fault {
    fn from(_fault: NoMemory) -> Fault {
        Fault::NoMemory
    }
}

impl<T: Drop> From<AllocFailed<T>> for Fault {
    fn from(_fault: AllocFailed<T>) -> Fault {
        Fault::NoMemory
    }
}

impl From<RowFault> for Fault {
    fn from(fault: RowFault) -> Fault {
        match fault {
            RowFault::NoMemory => Fault::NoMemory,
            RowFault::Past => Fault::Past,
        }
    }
}
