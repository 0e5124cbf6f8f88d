//! The input lines of a workload.
ghost use Rattle.std.specs.Prelude.{◌≡◌, ◌*◌, ◌≤◌, ◌++◌, IfOk, OnOk};
ghost use Rattle.cf_gen.specs.Workload.{drawn, gen_lines, input_line, input_of, seed as seed_at};

use crate::draw::{input, next_seed};
use cf_tree::{NoMemory, put_number};
use std::alloc::Global;

/// The input lines of the workload of size `n`: `n * n` lines, each a whole number in decimal and a
/// line feed.
///
/// # Errors
/// `NoMemory` where memory runs out.
pub fn lines(alloc: Global, n: u64) -> Result<Vec<u8>, NoMemory>
    requires { (1 ≤ n) × (n ≤ 100) }
    ensures { IfOk result (λ bytes. bytes.items ≡ gen_lines n) }
{
    let mut out = Vec::new(alloc);
    put_lines(&mut out, n as u32)?;
    Ok(out)
}

fn put_lines(out: &mut Vec<u8>, n: u32) -> Result<(), NoMemory>
    requires { n ≤ 100 }
    ensures { OnOk result (out.new.items ≡ out.old.items ++ gen_lines n) }
{
    let count = square(n);
    let mut seed = last_seed(n);
    for i in 0..count {
        seed = next_seed(seed);
        put_line(out, seed)?;
    }
    Ok(())
}

// The line with this seed.
fn put_line(out: &mut Vec<u8>, seed: u32) -> Result<(), NoMemory>
    ensures { OnOk result (out.new.items ≡ out.old.items ++ input_line (input_of (drawn seed))) }
{
    put_number(out, input(seed))?;
    out.push(b'\n')?;
    Ok(())
}

fn square(n: u32) -> u32
    requires { n ≤ 100 }
    ensures { result ≡ n * n }
{
    n * n
}

// The seed of the last function.
fn last_seed(n: u32) -> u32
    ensures { result ≡ seed_at n n }
{
    let mut seed = n;
    for _i in 0..n {
        seed = next_seed(seed);
    }
    seed
}
