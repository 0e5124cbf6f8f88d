//! How many tuples the arms of a choose have.
ghost use Rattle.std.specs.Prelude.{◌≡◌, ◌+◌, ◌*◌, IfOk};
ghost use Rattle.cf_tree.specs.Meaning.{count_below};
ghost use Rattle.cf_tree.specs.RelView.{rel_tree};
ghost use Rattle.cf_warn.specs.Missing.{tuple_count};
ghost use Rattle.cf_warn.specs.Writing.{bounds_in};

use cf_choose::Solved;
use cf_linear::Search;
use cf_tree::NoMemory;

/// How many search tuples the arms have.
///
/// # Errors
/// `NoMemory` where their number does not fit in 64 bits.
#[tactic(auto, using(crate::proofs::TupleCounts::next_case, crate::proofs::TupleCounts::all_cases))]
pub fn tuple_count(solved: &Solved) -> Result<u64, NoMemory>
    ensures { IfOk result (λ n. n ≡ tuple_count solved.now.scope.items solved.now.outputs.items (rel_tree solved.now.rel)) }
{
    let mut total: u64 = 0;
    for case in 0..solved.cases_len() {
        total = more(total, tuples_below(solved.bounds(case))?)?;
    }
    Ok(total)
}

// How many tuples lie below the bounds.
#[tactic(auto, using(crate::proofs::TupleCounts::next_bound))]
pub(crate) fn tuples_below(bounds: &[Search]) -> Result<u64, NoMemory>
    ensures { IfOk result (λ n. n ≡ count_below (bounds_in bounds.now)) }
{
    let mut total: u64 = 1;
    let mut rest = bounds;
    while let Some((search, left)) = rest.split_first() {
        total = times(total, search.bound)?;
        rest = left;
    }
    Ok(total)
}

// The sum in 64 bits. More is want of memory.
fn more(a: u64, b: u64) -> Result<u64, NoMemory>
    ensures { IfOk result (λ c. c ≡ a + b) }
{
    match a.checked_add(b) {
        Some(c) => Ok(c),
        None => Err(NoMemory),
    }
}

// The product in 64 bits. More is want of memory.
fn times(a: u64, b: u32) -> Result<u64, NoMemory>
    ensures { IfOk result (λ c. c ≡ a * b) }
{
    match a.checked_mul(u64::from(b)) {
        Some(c) => Ok(c),
        None => Err(NoMemory),
    }
}
