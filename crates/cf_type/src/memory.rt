//! Values that want a place. Generic, since of a type parameter a drop is one call: that of a value
//! for which no place was found.
ghost use Rattle.std.specs.Prelude.{◌≡◌, ◌++◌, ◌∷◌, [], IfOk, OnOk};

use cf_program::TypeFault;
use cf_tree::NoMemory;
use std::alloc::Global;

/// The value in a box.
pub fn in_box<T: Drop>(alloc: Global, value: T) -> Result<Box<T>, NoMemory>
    ensures { IfOk result (λ b. b.value ≡ value) }
{
    Ok(Box::new(alloc, value)?)
}

/// Puts the value behind all others.
pub fn push<T: Drop>(all: &mut Vec<T>, value: T) -> Result<(), NoMemory>
    ensures { OnOk result (all.new.items ≡ all.old.items ++ value ∷ []) }
{
    all.push(value)?;
    Ok(())
}
