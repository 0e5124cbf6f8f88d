//! Counts that may pass what a number holds.
ghost use Rattle.std.specs.Prelude.{◌≡◌, ◌+◌, suc, IfOk};

use cf_tree::NoMemory;

/// The number behind a number.
///
/// # Errors
/// `NoMemory` behind the last number.
pub fn next(number: usize) -> Result<usize, NoMemory>
    ensures { IfOk result (λ n. n ≡ suc number) }
{
    match number.checked_add(1) {
        Some(n) => Ok(n),
        None => Err(NoMemory),
    }
}

/// The sum of two numbers.
///
/// # Errors
/// `NoMemory` where it is past the last number.
pub fn sum_of(a: usize, b: usize) -> Result<usize, NoMemory>
    ensures { IfOk result (λ n. n ≡ a + b) }
{
    match a.checked_add(b) {
        Some(n) => Ok(n),
        None => Err(NoMemory),
    }
}
