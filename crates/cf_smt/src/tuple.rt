//! Tuples of searches.
ghost use Rattle.std.specs.Prelude.{◌≡◌, ◌≤◌, ◌*◌, IfOk, decimal};
ghost use Rattle.cf_smt.specs.Commands.{behind_lowest as behind, few_below as few, lowest as least_place, tuple_texts as tuple_of};

use cf_tree::{NoMemory, Text, put_number};
use std::alloc::Global;

// for the proof: so many tuples for each of n, which are few.
fn times(n: u64, bound: u32) -> u64
    requires { n ≤ 64 }
    ensures { result ≡ n * bound }
{
    n * u64::from(bound)
}

/// How many tuples lie below the bounds, where they are few.
pub(crate) fn few_below(bounds: &[u32]) -> Option<u64>
    ensures { result ≡ few 1 bounds.now }
{
    let mut n: u64 = 1;
    for bound in bounds {
        if n <= 64 {
            n = times(n, *bound);
        } else {
            return None;
        }
    }
    if n <= 64 { Some(n) } else { None }
}

fn lowest(bound: u32, i: u64) -> u64
    ensures { result ≡ least_place bound i }
{
    if bound == 0 { 0 } else { i % u64::from(bound) }
}

fn behind_lowest(bound: u32, i: u64) -> u64
    ensures { result ≡ behind bound i }
{
    if bound == 0 { i } else { i / u64::from(bound) }
}

// The number of a search in the i-th tuple.
fn digits(alloc: Global, bound: u32, i: u64) -> Result<Text, NoMemory>
    ensures { IfOk result (λ t. t ≡ decimal (least_place bound i)) }
{
    let mut bytes = Vec::new(alloc);
    put_number(&mut bytes, lowest(bound, i))?;
    Ok(Text { bytes })
}

/// The i-th tuple below the bounds.
pub(crate) fn tuple_texts(alloc: Global, bounds: &[u32], i: u64) -> Result<Vec<Text>, NoMemory>
    ensures { IfOk result (λ all. all.items ≡ tuple_of bounds.now i) }
{
    let mut all = Vec::new(alloc);
    let mut left = i;
    for bound in bounds {
        all.push(digits(alloc, *bound, left)?)?;
        left = behind_lowest(*bound, left);
    }
    Ok(all)
}
