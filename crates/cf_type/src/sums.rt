//! Sums of constants, which may pass the limit on the way and come back.
ghost use Rattle.std.specs.Prelude.{◌≡◌, ◌^◌, pos, neg_ℤ, ◌+ℤ◌, ◌-ℤ◌, ◌<ℤ◌, ◌≤ℤ◌, ◌<◌, ◌≤◌, ◌+◌, unsigned_abs};
ghost use Rattle.cf_num.specs.Limit.{within};
ghost use Rattle.cf_program.specs.Walk.{sum_with};
ghost use Rattle.cf_type.specs.Sums.{sum_of};

use crate::number::limited;

/// A whole number: `low`, and `turns` times 2^128.
#[derive(Clone, Copy)]
pub(crate) struct Sum {
    pub(crate) low: i128,
    pub(crate) turns: i128,
}

/// The sum of these numbers, or none where it passes the limit.
pub fn total(first: i128, more: &[i128]) -> Option<i128>
    ensures { result ≡ within (sum_with first more.now) }
{
    let mut sum = Sum {
        low: first,
        turns: 0,
    };
    for k in more {
        sum = plus(sum, *k);
    }
    if sum.turns == 0 {
        limited(sum.low)
    } else {
        None
    }
}

// One number more.
fn plus(sum: Sum, k: i128) -> Sum
    requires { unsigned_abs sum.turns < 2 ^ 64 }
    ensures value { sum_of result ≡ sum_of sum +ℤ k }
    ensures near { unsigned_abs result.turns ≤ unsigned_abs sum.turns + 1 }
{
    match sum.low.checked_add(k) {
        Some(low) => Sum {
            low,
            turns: sum.turns,
        },
        None if k < 0 => Sum {
            low: with_a_turn(sum.low, k),
            turns: sum.turns - 1,
        },
        None => Sum {
            low: without_a_turn(sum.low, k),
            turns: sum.turns + 1,
        },
    }
}

// The sum of two numbers that is below the least `i128`, and 2^128.
fn with_a_turn(a: i128, b: i128) -> i128
    requires { (a +ℤ b) <ℤ (neg_ℤ (pos (2 ^ 127))) }
    ensures { result ≡ a +ℤ b +ℤ pos (2 ^ 128) }
{
    (a - i128::MIN) + (b - i128::MIN)
}

// The sum of two numbers that is above the greatest `i128`, less 2^128.
fn without_a_turn(a: i128, b: i128) -> i128
    requires { (pos (2 ^ 127)) ≤ℤ (a +ℤ b) }
    ensures { result ≡ a +ℤ b -ℤ pos (2 ^ 128) }
{
    (a + i128::MIN) + (b + i128::MIN)
}
