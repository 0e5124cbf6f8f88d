//! Rows without their constants.
ghost use Rattle.std.specs.Prelude.{◌≡◌, ◌≤◌, ◌<◌, ◌+◌, int_lt, drop, length, pos, ◌<ℤ◌};
ghost use Rattle.cf_num.specs.Limit.{IsWithin};
ghost use Rattle.std.specs.Int.{int_rem_euclid};
ghost use Rattle.cf_linear.specs.Rows.{is_zero, same_row};
ghost use Rattle.cf_linear.specs.Steps.{common};
ghost use Rattle.cf_formula.specs.Atoms.{key, is_constant, first_entry, is_divided};

use cf_linear::Row;
use cf_num::{gcd, modulo};

/// Whether the row holds no column but the constant.
#[tactic(auto, using(crate::proofs::KeyLemmas::constant_test))]
pub fn is_constant(row: &Row) -> bool
    ensures { result ≡ is_constant row.now }
{
    let start = key_start(row);
    start == row.len()
}

/// Whether the row without its constant is the other row.
#[tactic(auto, using(crate::proofs::KeyLemmas::has_key_is, crate::proofs::KeyLemmas::other_key))]
pub fn has_key(row: &Row, wanted: &Row) -> bool
    ensures { result ≡ same_row (key row.now) wanted.now }
{
    let start = key_start(row);
    if row.len() - start != wanted.len() {
        return false;
    }
    agrees_from(row, start, wanted)
}

/// Whether the first entry but the constant is below 0.
#[tactic(auto, using(crate::proofs::KeyLemmas::first_below, crate::proofs::KeyLemmas::none_below))]
pub(crate) fn begins_below(row: &Row) -> bool
    ensures { result ≡ int_lt (first_entry (key row.now)) (pos 0) }
{
    let start = key_start(row);
    if start < row.len() {
        return row.at(start).1 < 0;
    }
    false
}

/// The greatest common divisor of the entries but the constant, 0 where there are none.
#[tactic(auto, using(crate::proofs::KeyLemmas::divisor_end))]
pub fn divisor(row: &Row) -> i128
    ensures value { result ≡ pos (common (key row.now)) }
    ensures fits { IsWithin result }
{
    let start = key_start(row);
    let mut g = 0;
    let mut i = row.len();
    while i > start {
        i -= 1;
        g = divisor_from(row, i, g);
    }
    g
}

/// Whether the divisor of the entries but the constant divides the constant too.
#[tactic(auto, using(crate::proofs::KeyLemmas::divided_small, crate::proofs::KeyLemmas::divided_great))]
pub(crate) fn is_divided(row: &Row) -> bool
    ensures { result ≡ is_divided row.now }
{
    let g = divisor(row);
    if g <= 1 {
        return true;
    }
    divides(g, row.entry(0))
}

// The place of the first entry but the constant.
#[tactic(auto, using(crate::proofs::KeyLemmas::key_empty, crate::proofs::KeyLemmas::key_behind, crate::proofs::KeyLemmas::key_whole))]
fn key_start(row: &Row) -> usize
    ensures key { drop result row.now ≡ key row.now }
    ensures within { result ≤ length row.now }
{
    if row.len() == 0 {
        return 0;
    }
    if row.at(0).0 == 0 { 1 } else { 0 }
}

// Whether the entries of the row from the place on are those of the other row.
#[tactic(auto, using(crate::proofs::KeyLemmas::agree_end, crate::proofs::KeyLemmas::agree_next, crate::proofs::KeyLemmas::agree_not))]
fn agrees_from(row: &Row, start: usize, wanted: &Row) -> bool
    requires same_length { start + length wanted.now ≡ length row.now }
    ensures { result ≡ same_row (drop start row.now) wanted.now }
{
    for i in start..row.len() {
        let (c, k) = row.at(i);
        let (d, m) = wanted.at(i - start);
        if c != d || k != m {
            return false;
        }
    }
    true
}

// The same divisor of the entries from the place on, g being that of the later ones.
#[tactic(auto, using(crate::proofs::KeyLemmas::divisor_next))]
fn divisor_from(row: &Row, i: usize, g: i128) -> i128
    requires place { i < length row.now }
    requires g_in { IsWithin g }
    requires later { g ≡ pos (common (drop (i + 1) row.now)) }
    ensures value { result ≡ pos (common (drop i row.now)) }
    ensures fits { IsWithin result }
{
    gcd(row.at(i).1, g)
}

// Whether g divides the number.
fn divides(g: i128, k: i128) -> bool
    requires g_in { IsWithin g }
    requires positive { pos 0 <ℤ g }
    requires k_in { IsWithin k }
    ensures { result ≡ is_zero (int_rem_euclid k g) }
{
    modulo(k, g) == 0
}
