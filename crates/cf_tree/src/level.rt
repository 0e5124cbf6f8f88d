//! Levels, counts of variables and numbers of chooses, which have 32 bits.
ghost use Rattle.std.specs.Prelude.{◌≡◌, ◌+◌, IfOk};

use crate::memory::NoMemory;

/// The count in 32 bits.
///
/// # Errors
/// `NoMemory` where it has more.
pub fn to_u32(count: usize) -> Result<u32, NoMemory>
    ensures { IfOk result (λ n. n ≡ count) }
{
    match u32::try_from(count) {
        Ok(n) => Ok(n),
        Err(_) => Err(NoMemory),
    }
}

/// The sum in 32 bits.
///
/// # Errors
/// `NoMemory` where it has more.
pub fn add_u32(a: u32, b: u32) -> Result<u32, NoMemory>
    ensures { IfOk result (λ n. n ≡ a + b) }
{
    match a.checked_add(b) {
        Some(n) => Ok(n),
        None => Err(NoMemory),
    }
}
