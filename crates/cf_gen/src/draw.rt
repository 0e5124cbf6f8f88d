//! The draws of a workload.
ghost use Rattle.std.specs.Prelude.{◌≡◌};
ghost use Rattle.cf_gen.specs.Workload.{coefficient_of, drawn, input_of, next_seed as next_of};

const MULTIPLIER: u64 = 1103515245;

const INCREMENT: u64 = 12345;

const MODULUS: u64 = 2147483648;

/// The seed behind this one.
pub(crate) fn next_seed(seed: u32) -> u32
    ensures { result ≡ next_of seed }
{
    ((u64::from(seed) * MULTIPLIER + INCREMENT) % MODULUS) as u32
}

// What is drawn of a seed, below 2 ^ 16.
fn draw(seed: u32) -> u32
    ensures { result ≡ drawn seed }
{
    seed / 65536
}

/// The coefficient of the function with this seed, from 2 to 99.
pub(crate) fn coefficient(seed: u32) -> u32
    ensures { result ≡ coefficient_of (drawn seed) }
{
    2 + draw(seed) % 98
}

/// The number on the input line with this seed.
pub(crate) fn input(seed: u32) -> i32
    ensures { result ≡ input_of (drawn seed) }
{
    draw(seed) as i32 - 16384
}
