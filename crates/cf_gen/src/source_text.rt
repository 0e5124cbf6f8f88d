//! The source of a workload.
ghost use Rattle.std.specs.Prelude.{◌≡◌, ◌≤◌, ◌++◌, IfOk, OnOk};
ghost use Rattle.std.specs.List.{flat_map, range_with_len};
ghost use Rattle.cf_gen.specs.Workload.{call_more, call_text, function_line, function_text, gen_source, main_line};

use crate::draw::{coefficient, next_seed};
use cf_tree::{NoMemory, put_number};
use std::alloc::Global;

/// The source of the workload of size `n`: a line for each of `n` functions, each of which solves
/// one choose, and a line for main, which adds their values. Each line ends with a line feed.
///
/// # Errors
/// `NoMemory` where memory runs out.
pub fn source(alloc: Global, n: u64) -> Result<Vec<u8>, NoMemory>
    requires { (1 ≤ n) × (n ≤ 100) }
    ensures { IfOk result (λ bytes. bytes.items ≡ gen_source n) }
{
    let mut out = Vec::new(alloc);
    put_functions(&mut out, n as u32)?;
    put_main(&mut out, n as u32)?;
    Ok(out)
}

// The lines of `n` functions.
fn put_functions(out: &mut Vec<u8>, n: u32) -> Result<(), NoMemory>
    requires { n ≤ 100 }
    ensures { OnOk result (out.new.items ≡ out.old.items ++ flat_map (function_line n) (range_with_len 1 n)) }
{
    let mut seed = n;
    for i in 0..n {
        seed = next_seed(seed);
        put_function(out, 1 + i, coefficient(seed))?;
    }
    Ok(())
}

// The line of function `i`, whose coefficient is `c`.
fn put_function(out: &mut Vec<u8>, i: u32, c: u32) -> Result<(), NoMemory>
    ensures { OnOk result (out.new.items ≡ out.old.items ++ function_text i c) }
{
    out.extend_from_slice(b"def f")?;
    put_number(out, i)?;
    out.extend_from_slice(b"(a: int): int = let (q, r) = choose (q: int, r: int) where a == ")?;
    put_number(out, c)?;
    out.extend_from_slice(b" * q + r && 0 <= r && r < ")?;
    put_number(out, c)?;
    out.extend_from_slice(b" in q + r\n")?;
    Ok(())
}

// The line of main over `n` functions.
fn put_main(out: &mut Vec<u8>, n: u32) -> Result<(), NoMemory>
    requires { (1 ≤ n) × (n ≤ 100) }
    ensures { OnOk result (out.new.items ≡ out.old.items ++ main_line n) }
{
    out.extend_from_slice(b"def main(a: int): int = ")?;
    put_call(out, 1)?;
    put_more_calls(out, n - 1)?;
    out.push(b'\n')?;
    Ok(())
}

// The calls of `count` functions from the second on, a plus sign before each.
fn put_more_calls(out: &mut Vec<u8>, count: u32) -> Result<(), NoMemory>
    requires { count ≤ 100 }
    ensures { OnOk result (out.new.items ≡ out.old.items ++ flat_map call_more (range_with_len 2 count)) }
{
    for i in 0..count {
        out.extend_from_slice(b" + ")?;
        put_call(out, 2 + i)?;
    }
    Ok(())
}

fn put_call(out: &mut Vec<u8>, i: u32) -> Result<(), NoMemory>
    ensures { OnOk result (out.new.items ≡ out.old.items ++ call_text i) }
{
    out.push(b'f')?;
    put_number(out, i)?;
    out.extend_from_slice(b"(a)")?;
    Ok(())
}
