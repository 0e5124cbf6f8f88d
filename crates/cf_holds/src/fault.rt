//! Why it is not told whether a relation holds.
use cf_tree::NoMemory;

/// Why it is not told whether a relation holds.
#[derive(Clone, Copy, Debug, PartialEq, Eq)]
pub enum HoldFault {
    /// A number passes 2^127 - 1 on the way.
    Past,
    NoMemory,
}

impl From<NoMemory> for HoldFault {
    fn from(_e: NoMemory) -> HoldFault {
        HoldFault::NoMemory
    }
}
