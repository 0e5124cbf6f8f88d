//! Want of memory, and what is given up at a fault.
ghost use Rattle.std.specs.Prelude.{◌≡◌};

use std::alloc::{AllocError, AllocFailed};

/// No memory is left. Any call that allocates may answer so, and no contract says when.
#[derive(Clone, Copy, Debug, PartialEq, Eq)]
pub struct NoMemory;

impl From<AllocError> for NoMemory {
    fn from(_e: AllocError) -> NoMemory {
        NoMemory
    }
}

impl<T: Drop> From<AllocFailed<T>> for NoMemory {
    fn from(_e: AllocFailed<T>) -> NoMemory {
        NoMemory
    }
}

/// The fault, once a held value is given up.
///
/// A `?` that ends a function while a tree is held writes the drop of each of its variants into the
/// goals; of a type parameter the drop is one call. So `Err(fault) => Err(without(tree, fault))`
/// stands where `?` would hold a tree.
pub fn without<T: Drop, E>(_value: T, fault: E) -> E
    ensures { result ≡ fault }
{
    fault
}
