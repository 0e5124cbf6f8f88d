//! Parts of rows: what holds unknowns, common divisors and quotients.
ghost use Rattle.std.specs.Prelude.{◌≡◌, ◌<◌, ◌++◌, ◌∷◌, ◌==◌, ◌||◌, [], pos, ◌<ℤ◌, length, get_or, drop, ◌+◌, if◌then◌else◌, IfOk, OnOk};
ghost use Rattle.std.specs.Int.{int_rem_euclid};
ghost use Rattle.cf_num.specs.Limit.{IsWithin};
ghost use Rattle.cf_linear.specs.Rows.{AreBelow, IsRow, is_zero};
ghost use Rattle.cf_linear.specs.Steps.{has_unknown, unknown_part, known_part, common};
ghost use Rattle.cf_linear.specs.RowParts.{divides_known, divided_by};

use crate::row::Row;
use crate::unknowns::Unknowns;
use cf_num::{fdiv, gcd, modulo};
use cf_tree::NoMemory;
use std::alloc::Global;

/// Whether the row holds an unknown.
#[tactic(auto, using(crate::proofs::PartLemmas::unknown_next, crate::proofs::PartLemmas::unknown_end))]
pub fn has_unknown(unknown: &Unknowns, row: &Row) -> bool
    ensures { result ≡ has_unknown unknown.now row.now }
{
    for i in 0..row.len() {
        if unknown.has(row.at(i).0) {
            return true;
        }
    }
    false
}

/// The unknowns of the row with their entries.
///
/// # Errors
/// `NoMemory` where memory ran out.
#[tactic(auto, using(crate::proofs::PartLemmas::unknown_more, crate::proofs::PartLemmas::unknown_below))]
pub fn unknown_part(alloc: Global, unknown: &Unknowns, row: &Row) -> Result<Row, NoMemory>
    ensures { IfOk result (λ r. r ≡ unknown_part unknown.now row.now) }
{
    let mut out = Row::empty(alloc);
    for i in 0..row.len() {
        let wanted = unknown.has(row.at(i).0);
        add_entry(&mut out, row, i, wanted)?;
    }
    Ok(out)
}

/// The other columns of the row with their entries.
///
/// # Errors
/// `NoMemory` where memory ran out.
#[tactic(auto, using(crate::proofs::PartLemmas::known_more, crate::proofs::PartLemmas::known_below))]
pub fn known_part(alloc: Global, unknown: &Unknowns, row: &Row) -> Result<Row, NoMemory>
    ensures { IfOk result (λ r. r ≡ known_part unknown.now row.now) }
{
    let mut out = Row::empty(alloc);
    for i in 0..row.len() {
        let wanted = !unknown.has(row.at(i).0);
        add_entry(&mut out, row, i, wanted)?;
    }
    Ok(out)
}

/// The greatest common divisor of the unknowns' entries.
#[tactic(auto, using(crate::proofs::PartLemmas::common_end))]
pub fn common(unknown: &Unknowns, row: &Row) -> i128
    ensures value { result ≡ pos (common (unknown_part unknown.now row.now)) }
    ensures fits { IsWithin result }
{
    let mut g = 0;
    let mut i = row.len();
    while i > 0 {
        i -= 1;
        g = common_from(unknown, row, i, g);
    }
    g
}

// The same of the entries from the place on, `g` being that of the later ones.
#[tactic(auto, using(crate::proofs::PartLemmas::common_more, crate::proofs::PartLemmas::common_same))]
fn common_from(unknown: &Unknowns, row: &Row, i: usize, g: i128) -> i128
    requires place { i < length row.now }
    requires g_in { IsWithin g }
    requires later { g ≡ pos (common (unknown_part unknown.now (drop (i + 1) row.now))) }
    ensures value { result ≡ pos (common (unknown_part unknown.now (drop i row.now))) }
    ensures fits { IsWithin result }
{
    let (column, k) = row.at(i);
    if unknown.has(column) { gcd(k, g) } else { g }
}

/// Whether `g` divides each entry but the constant.
#[tactic(auto, using(crate::proofs::PartLemmas::divides_next, crate::proofs::PartLemmas::divides_end))]
pub fn divides_known(row: &Row, g: i128) -> bool
    requires g_in { IsWithin g }
    requires positive { pos 0 <ℤ g }
    ensures { result ≡ divides_known g row.now }
{
    for i in 0..row.len() {
        let (column, k) = row.at(i);
        if !divides_entry(column, k, g) {
            return false;
        }
    }
    true
}

// Whether `g` divides the entry, or that is the constant.
fn divides_entry(column: u32, k: i128, g: i128) -> bool
    requires k_in { IsWithin k }
    requires g_in { IsWithin g }
    requires positive { pos 0 <ℤ g }
    ensures { result ≡ ((column == 0) || is_zero (int_rem_euclid k g)) }
{
    column == 0 || modulo(k, g) == 0
}

/// Each entry divided by `g` and rounded down.
///
/// # Errors
/// `NoMemory` where memory ran out.
#[tactic(auto, using(crate::proofs::PartLemmas::divided_more, crate::proofs::PartLemmas::divided_below))]
pub fn divided(alloc: Global, row: &Row, g: i128) -> Result<Row, NoMemory>
    requires g_in { IsWithin g }
    requires positive { pos 0 <ℤ g }
    ensures value { IfOk result (λ r. r ≡ divided_by g row.now) }
    ensures rows { IsRow row.now }
{
    let mut out = Row::empty(alloc);
    for i in 0..row.len() {
        let (column, k) = row.at(i);
        out.append(column, fdiv(k, g))?;
    }
    Ok(out)
}

// Adds the entry at the place to the end, if it is wanted.
fn add_entry(out: &mut Row, row: &Row, i: usize, wanted: bool) -> Result<(), NoMemory>
    requires place { i < length row.now }
    requires after { AreBelow (get_or row.now i (0, pos 0)).0 out.old }
    ensures { OnOk result (out.new ≡ out.old ++ (if wanted then get_or row.now i (0, pos 0) ∷ [] else [])) }
{
    if wanted {
        let (column, k) = row.at(i);
        out.append(column, k)?;
    }
    Ok(())
}
